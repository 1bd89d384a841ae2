// Images: as a case gives one, and as an answer tells what has changed in it.
ghost use Rattle.std.specs.Prelude.{◌≤◌, IfOk};

use crate::answers::{Failure, Output, Tell};
use crate::numbers::{BadCase, Numbers};
use std::io;
use std::io::Write;

// The most words that an image is given with: one more than a machine takes.
const MOST: usize = 16385;

// Lays the image that `n k i1 v1 .. ik vk` gives into words that are all 0. How many it has.
fn read(numbers: &mut Numbers<'_>, words: &mut [u32; MOST]) -> Result<usize, BadCase>
    ensures { IfOk result (λ n. n ≤ 16385) }
{
    let n = numbers.take()?;
    let image = words.get_mut(..n).ok_or(BadCase)?;
    let pairs: u32 = numbers.take()?;
    for _ in 0..pairs {
        let index: usize = numbers.take()?;
        *image.get_mut(index).ok_or(BadCase)? = numbers.take()?;
    }
    Ok(n)
}

// Tells which words of an image are others than were given: how many, then the index and the value
// of each.
fn tell_changes(out: &mut Output, given: &[u32], left: &[u32]) -> io::Result<()> {
    let changed = given.iter().zip(left).filter(|(old, new)| old != new);
    let count = changed.count();
    write!(out, " {count:x}")?;
    for (index, (old, new)) in given.iter().zip(left).enumerate() {
        if old != new {
            write!(out, " {index:x} {new:x}")?;
        }
    }
    Ok(())
}

// Answers by an entry that works on an image, which the last numbers of its case give, and by what
// has changed in it then.
pub(crate) fn answer<T: Tell, F: FnOnce(&mut [u32]) -> T>(
    mut numbers: Numbers<'_>,
    out: &mut Output,
    entry: F,
) -> Result<(), Failure>
    requires { F.IsAlwaysCallable entry }
{
    let mut words = [0u32; MOST];
    let n = read(&mut numbers, &mut words)?;
    numbers.end()?;
    let given = words;
    entry(&mut words[..n]).tell(out)?;
    tell_changes(out, &given[..n], &words[..n])?;
    Ok(())
}

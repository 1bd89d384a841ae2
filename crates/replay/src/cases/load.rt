// `load BASE p w1 .. wp IMAGE`: a program of p words laid into an image from word BASE on.
use crate::answers::{Failure, Output};
use crate::image;
use crate::numbers::{BadCase, Numbers};
use parts::load;
use terms::WordIndex;

// A line has fewer numbers than there is room for.
pub(crate) fn answer(
    mut numbers: Numbers<'_>,
    room: &mut [u32],
    out: &mut Output,
) -> Result<(), Failure> {
    let base = WordIndex(numbers.take()?);
    let p: usize = numbers.take()?;
    let program = room.get_mut(..p).ok_or(BadCase)?;
    numbers.fill(program)?;
    image::answer(numbers, out, |image| load(program, base, image))
}

// `read n b1 .. bn`: reading a store file of n bytes.
use crate::answers::{Failure, Output, Tell};
use crate::numbers::{BadCase, Numbers};
use storefile::read_file;

pub(crate) fn answer(mut numbers: Numbers<'_>, out: &mut Output) -> Result<(), Failure> {
    let mut room = [0u8; 256];
    let n: usize = numbers.take()?;
    let file = room.get_mut(..n).ok_or(BadCase)?;
    numbers.fill(file)?;
    numbers.end()?;
    Ok(read_file(file).tell(out)?)
}

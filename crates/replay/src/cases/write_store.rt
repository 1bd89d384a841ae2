// `write n STORE`: writing a store file into a buffer of n bytes, each ee before.
use crate::answers::{Failure, Output, Tell, put_all};
use crate::numbers::{BadCase, Numbers};
use crate::stores;
use storefile::write_file;

pub(crate) fn answer(mut numbers: Numbers<'_>, out: &mut Output) -> Result<(), Failure> {
    let mut room = [0xeeu8; 256];
    let n: usize = numbers.take()?;
    let buffer = room.get_mut(..n).ok_or(BadCase)?;
    let store = stores::read(&mut numbers)?;
    numbers.end()?;
    write_file(&store, buffer).tell(out)?;
    Ok(put_all(out, buffer)?)
}

// `decode W`: the instruction that a word is.
use crate::answers::{Failure, Output, Tell};
use crate::numbers::Numbers;
use words::decode;

pub(crate) fn answer(mut numbers: Numbers<'_>, out: &mut Output) -> Result<(), Failure> {
    let word = numbers.take()?;
    numbers.end()?;
    Ok(decode(word).tell(out)?)
}

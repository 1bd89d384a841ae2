// `encode KIND f1 f2 f3`: the word of an instruction.
use crate::answers::{Failure, Output, Tell};
use crate::kinds;
use crate::numbers::Numbers;
use words::encode;

pub(crate) fn answer(mut numbers: Numbers<'_>, out: &mut Output) -> Result<(), Failure> {
    let instruction = kinds::read(&mut numbers)?;
    numbers.end()?;
    Ok(encode(instruction).tell(out)?)
}

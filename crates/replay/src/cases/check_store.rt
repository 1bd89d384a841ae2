// `check STORE`: the check of a store.
use crate::answers::{Failure, Output, Tell};
use crate::numbers::Numbers;
use crate::stores;
use walks::check;

pub(crate) fn answer(mut numbers: Numbers<'_>, out: &mut Output) -> Result<(), Failure> {
    let store = stores::read(&mut numbers)?;
    numbers.end()?;
    Ok(check(&store).tell(out)?)
}

// `store B STORE MACHINE IMAGE`: a store's run, with a budget of B cycles.
use crate::answers::{Failure, Output};
use crate::numbers::Numbers;
use crate::{image, machines, stores};
use control::run_store;
use terms::Cycles;

pub(crate) fn answer(mut numbers: Numbers<'_>, out: &mut Output) -> Result<(), Failure> {
    let budget = Cycles(numbers.take()?);
    let store = stores::read(&mut numbers)?;
    let machine = machines::read(&mut numbers)?;
    image::answer(numbers, out, |image| {
        run_store(&store, machine, image, budget)
    })
}

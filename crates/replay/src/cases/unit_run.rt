// `run U B MACHINE IMAGE`: a fixed unit's run, with a budget of B cycles.
use crate::answers::{Failure, Output};
use crate::numbers::{BadCase, Numbers};
use crate::{image, machines};
use control::{Unit, run};
use terms::Cycles;

// 0 state table, 1 ROM, 2 PLA, 3 sequencer.
fn unit(number: u32) -> Result<Unit, BadCase> {
    match number {
        0 => Ok(Unit::StateTable),
        1 => Ok(Unit::Rom),
        2 => Ok(Unit::Pla),
        3 => Ok(Unit::Sequencer),
        _ => Err(BadCase),
    }
}

pub(crate) fn answer(mut numbers: Numbers<'_>, out: &mut Output) -> Result<(), Failure> {
    let unit = unit(numbers.take()?)?;
    let budget = Cycles(numbers.take()?);
    let machine = machines::read(&mut numbers)?;
    image::answer(numbers, out, |image| run(unit, machine, image, budget))
}

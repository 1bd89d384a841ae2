// The word that stands for a line, or the line's refusal.
ghost use Rattle.std.specs.Prelude.{◌≡◌};
ghost use Rattle.placing.specs.Placing.{fault_number, name_in, Places, Names};

use crate::meanings::{out_of_reach, word};
use operands::Label;
use source::{Reading, Statement};
use terms::ByteAddress;

// Why a line is refused.
#[derive(Clone, Copy, PartialEq, Eq)]
pub enum Fault {
    // 20: line not readable
    Unreadable,
    // 21: label defined above
    DefinedAbove,
    // 22: label unknown
    Unknown,
    // 23: target out of reach
    OutOfReach,
}

// The number of a fault.
pub fn fault_number(fault: Fault) -> u32
    ensures { result ≡ fault_number fault }
{
    match fault {
        Fault::Unreadable => 20,
        Fault::DefinedAbove => 21,
        Fault::Unknown => 22,
        Fault::OutOfReach => 23,
    }
}

fn name_of(statement: Statement) -> Option<Label>
    ensures { result ≡ name_in statement }
{
    match statement {
        Statement::Beq { label, .. } | Statement::Jump { label } => Some(label),
        _ => None,
    }
}

// The label that a line's statement names, if it names one.
pub fn name_in(reading: Reading) -> Option<Label>
    ensures { Names reading result }
{
    match reading {
        Ok(Some(statement)) => name_of(statement),
        _ => None,
    }
}

// The word of a line that stands at `address`, if it has one: whether its label is defined above
// it, and the address that it names; none where that is a label which is not known, and any where
// it names none.
#[tactic(auto, unfolding(crate::specs::Placing::placed))]
pub fn place(
    reading: Reading,
    above: bool,
    address: ByteAddress,
    target: Option<ByteAddress>,
) -> Result<Option<u32>, Fault>
    ensures { Places above address.0 target reading result }
{
    let statement = reading.map_err(|_| Fault::Unreadable)?;
    if above {
        return Err(Fault::DefinedAbove);
    }
    let target = target.ok_or(Fault::Unknown)?;
    let Some(statement) = statement else {
        return Ok(None);
    };
    if out_of_reach(statement, address, target) {
        return Err(Fault::OutOfReach);
    }
    Ok(Some(word(statement, address, target)))
}

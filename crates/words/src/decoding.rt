// From a word to its instruction.
ghost use Rattle.std.specs.Prelude.{◌≡◌};
ghost use Rattle.terms.specs.Answers.{answered, chain};
ghost use Rattle.words.specs.Decoding.{Decodes, decoded_as, instruction_as, made};

use crate::fields;
use crate::instructions::Instruction;
use crate::kinds::{Kind, kind_of};
use terms::Refusal;

// The instruction of a kind, with the fields of a word: in no struct, since this is the one
// function that takes them all, and an `Instruction` is the struct of those that it has.
fn with_fields(
    kind: Kind,
    rd: u8,
    rs: u8,
    rt: u8,
    field: u16,
    target: u32,
) -> Result<Instruction, Refusal>
    ensures { decoded_as result
        ≡ chain (made kind rd rs rt field target) (λ i. answered (instruction_as i)) }
{
    match kind {
        Kind::Add => Ok(Instruction::Add { rd, rs, rt }),
        Kind::Sub => Ok(Instruction::Sub { rd, rs, rt }),
        Kind::And => Ok(Instruction::And { rd, rs, rt }),
        Kind::Or => Ok(Instruction::Or { rd, rs, rt }),
        Kind::Slt => Ok(Instruction::Slt { rd, rs, rt }),
        Kind::Lw => Ok(Instruction::Lw { rt, rs, field }),
        Kind::Sw => Ok(Instruction::Sw { rt, rs, field }),
        Kind::Beq => Ok(Instruction::Beq { rs, rt, field }),
        Kind::Jump => Ok(Instruction::Jump { field: target }),
        Kind::NoOpcode => Err(Refusal::NoEntry),
        Kind::NoFunction => Err(Refusal::UnknownFunction),
    }
}

// The instruction that a word is: 3 where the opcode is none of the five, 4 where the function is
// none of the five.
pub fn decode(word: u32) -> Result<Instruction, Refusal>
    ensures { Decodes word result }
{
    with_fields(
        kind_of(word),
        fields::rd(word),
        fields::rs(word),
        fields::rt(word),
        fields::field(word),
        fields::target(word),
    )
}

// From an instruction to its word.
ghost use Rattle.std.specs.Prelude.{◌≡◌, ◌<◌};
ghost use Rattle.words.specs.Encoding.{Encodes, encoded_as, r_format, i_format, j_format};

use crate::instructions::Instruction;
use terms::Refusal;

// Opcode 0, three registers, bits 10 to 6 zero and a function.
#[tactic(auto, unfolding(crate::specs::Encoding::r_format))]
fn r_format(rd: u8, rs: u8, rt: u8, function: u8) -> Result<u32, Refusal>
    ensures { encoded_as result ≡ r_format rd rs rt function }
{
    if 31 < rd || 31 < rs || 31 < rt {
        return Err(Refusal::FieldTooLarge);
    }
    let registers = u32::from(rs) * 2097152 + u32::from(rt) * 65536 + u32::from(rd) * 2048;
    Ok(registers + u32::from(function))
}

// An opcode, two registers and a 16-bit field.
#[tactic(auto, unfolding(crate::specs::Encoding::i_format))]
fn i_format(opcode: u8, rs: u8, rt: u8, field: u16) -> Result<u32, Refusal>
    requires { opcode < 64 }
    ensures { encoded_as result ≡ i_format opcode rs rt field }
{
    if 31 < rs || 31 < rt {
        return Err(Refusal::FieldTooLarge);
    }
    let upper = u32::from(opcode) * 67108864 + u32::from(rs) * 2097152 + u32::from(rt) * 65536;
    Ok(upper + u32::from(field))
}

// Opcode 2 and a 26-bit field.
#[tactic(auto, unfolding(crate::specs::Encoding::j_format))]
fn j_format(field: u32) -> Result<u32, Refusal>
    ensures { encoded_as result ≡ j_format field }
{
    if 67108863 < field {
        return Err(Refusal::FieldTooLarge);
    }
    Ok(134217728 + field)
}

// The word of an instruction: 8 where a register is above 31 or a j field is 2^26 or more.
pub fn encode(instruction: Instruction) -> Result<u32, Refusal>
    ensures { Encodes instruction result }
{
    match instruction {
        Instruction::Add { rd, rs, rt } => r_format(rd, rs, rt, 32),
        Instruction::Sub { rd, rs, rt } => r_format(rd, rs, rt, 34),
        Instruction::And { rd, rs, rt } => r_format(rd, rs, rt, 36),
        Instruction::Or { rd, rs, rt } => r_format(rd, rs, rt, 37),
        Instruction::Slt { rd, rs, rt } => r_format(rd, rs, rt, 42),
        Instruction::Lw { rt, rs, field } => i_format(35, rs, rt, field),
        Instruction::Sw { rt, rs, field } => i_format(43, rs, rt, field),
        Instruction::Beq { rs, rt, field } => i_format(4, rs, rt, field),
        Instruction::Jump { field } => j_format(field),
    }
}

// An instruction in four numbers: its kind, 0 to 8, and three fields. These are rd, rs and rt in
// the R-format, rt, rs and the field of lw and sw, rs, rt and the field of beq, and the field of j
// with two zeros.
use crate::answers::{Output, Tell, put_all};
use crate::numbers::{BadCase, Numbers};
use std::io;
use words::Instruction;

// The four numbers of an instruction.
fn numbers_of(instruction: Instruction) -> [u32; 4] {
    match instruction {
        Instruction::Add { rd, rs, rt } => [0, rd.into(), rs.into(), rt.into()],
        Instruction::Sub { rd, rs, rt } => [1, rd.into(), rs.into(), rt.into()],
        Instruction::And { rd, rs, rt } => [2, rd.into(), rs.into(), rt.into()],
        Instruction::Or { rd, rs, rt } => [3, rd.into(), rs.into(), rt.into()],
        Instruction::Slt { rd, rs, rt } => [4, rd.into(), rs.into(), rt.into()],
        Instruction::Lw { rt, rs, field } => [5, rt.into(), rs.into(), field.into()],
        Instruction::Sw { rt, rs, field } => [6, rt.into(), rs.into(), field.into()],
        Instruction::Beq { rs, rt, field } => [7, rs.into(), rt.into(), field.into()],
        Instruction::Jump { field } => [8, field, 0, 0],
    }
}

impl Tell for Instruction {
    fn tell(self, out: &mut Output) -> io::Result<()> {
        put_all(out, &numbers_of(self))
    }
}

// The instruction that the next four numbers give, where there is such a kind and each field's type
// can hold its number.
pub(crate) fn read(numbers: &mut Numbers<'_>) -> Result<Instruction, BadCase> {
    let kind: u32 = numbers.take()?;
    match kind {
        0..=4 => r_format(kind, numbers),
        5 => {
            let (rt, rs, field) = i_fields(numbers)?;
            Ok(Instruction::Lw { rt, rs, field })
        }
        6 => {
            let (rt, rs, field) = i_fields(numbers)?;
            Ok(Instruction::Sw { rt, rs, field })
        }
        7 => {
            let (rs, rt, field) = i_fields(numbers)?;
            Ok(Instruction::Beq { rs, rt, field })
        }
        8 => match numbers.take_array::<u32, 3>()? {
            [field, 0, 0] => Ok(Instruction::Jump { field }),
            _ => Err(BadCase),
        },
        _ => Err(BadCase),
    }
}

// That of a kind below 5, whose fields are three registers.
fn r_format(kind: u32, numbers: &mut Numbers<'_>) -> Result<Instruction, BadCase> {
    let [rd, rs, rt]: [u8; 3] = numbers.take_array()?;
    match kind {
        0 => Ok(Instruction::Add { rd, rs, rt }),
        1 => Ok(Instruction::Sub { rd, rs, rt }),
        2 => Ok(Instruction::And { rd, rs, rt }),
        3 => Ok(Instruction::Or { rd, rs, rt }),
        _ => Ok(Instruction::Slt { rd, rs, rt }),
    }
}

// Two registers and a field of 16 bits.
fn i_fields(numbers: &mut Numbers<'_>) -> Result<(u8, u8, u16), BadCase> {
    Ok((numbers.take()?, numbers.take()?, numbers.take()?))
}

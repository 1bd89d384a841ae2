// An instruction is a kind with its own fields. A register is a number, and a field is its bits.
#[derive(Clone, Copy)]
pub enum Instruction {
    Add { rd: u8, rs: u8, rt: u8 },
    Sub { rd: u8, rs: u8, rt: u8 },
    And { rd: u8, rs: u8, rt: u8 },
    Or { rd: u8, rs: u8, rt: u8 },
    Slt { rd: u8, rs: u8, rt: u8 },
    Lw { rt: u8, rs: u8, field: u16 },
    Sw { rt: u8, rs: u8, field: u16 },
    Beq { rs: u8, rt: u8, field: u16 },
    Jump { field: u32 },
}

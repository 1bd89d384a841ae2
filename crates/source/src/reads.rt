// What the parts of a statement are read as.
ghost use Rattle.std.specs.Prelude.{◌≡◌, List, ℕ};
ghost use Rattle.terms.specs.Answers.{Answer};
ghost use Rattle.operands.specs.Operands.{read_as, shaped, label};
ghost use Rattle.operands.specs.declared.operands.Shape.TheVariants as shape;

use operands::{Label, Shape, read_label, shaped};

// What a part is read as, and the value that it then has.
pub(crate) trait Operand: Copy {
    type Value;

    ghost says: { Self → List ℕ → Answer Self.Value };

    fn read(self, part: &[u8]) -> Option<Self::Value>
        ensures { read_as result ≡ says self part.now };
}

// A mark has the value 0.
impl Operand for Shape {
    type Value = u64;

    ghost says = { shaped };

    fn read(self, part: &[u8]) -> Option<u64> {
        shaped(part, self)
    }
}

// The number of a register.
#[derive(Clone, Copy)]
pub(crate) struct Register;

impl Operand for Register {
    type Value = u8;

    ghost says = { λ _. shaped shape.Register };

    fn read(self, part: &[u8]) -> Option<u8> {
        Some(shaped(part, Shape::Register)? as u8)
    }
}

// The 16 bits of an offset. The casts here lose nothing: `operands::shaped` answers one number for
// every shape, and promises its width.
#[derive(Clone, Copy)]
pub(crate) struct Offset;

impl Operand for Offset {
    type Value = u16;

    ghost says = { λ _. shaped shape.Offset };

    fn read(self, part: &[u8]) -> Option<u16> {
        Some(shaped(part, Shape::Offset)? as u16)
    }
}

// The word of eight hexadecimal digits.
#[derive(Clone, Copy)]
pub(crate) struct Word;

impl Operand for Word {
    type Value = u32;

    ghost says = { λ _. shaped shape.Word };

    fn read(self, part: &[u8]) -> Option<u32> {
        Some(shaped(part, Shape::Word)? as u32)
    }
}

// A label.
#[derive(Clone, Copy)]
pub(crate) struct Name;

impl Operand for Name {
    type Value = Label;

    ghost says = { λ _. label };

    fn read(self, part: &[u8]) -> Option<Label> {
        read_label(part)
    }
}

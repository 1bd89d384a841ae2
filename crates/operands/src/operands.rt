// The operands of a statement, each a part of its line.
ghost use Rattle.std.specs.Prelude.{◌≡◌};
ghost use Rattle.operands.specs.Operands as of;

use crate::numbers::{Digits, read_number};

// What a part is asked for as.
#[derive(Clone, Copy)]
pub enum Shape {
    // $0 to $31
    Register,
    // -32768 to 32767, as 16 bits
    Offset,
    // eight hexadecimal digits
    Word,
    Comma,
    Colon,
    Open,
    Close,
}

// Whether a part is as long as a decimal, with no leading zero.
#[tactic(auto, unfolding(crate::specs::Operands::decimal_form))]
fn has_decimal_form(part: &[u8]) -> bool
    ensures { result ≡ of.decimal_form part.now }
{
    let n = part.len();
    1 <= n && n <= 5 && (n == 1 || part[0] != b'0')
}

// A decimal up to a limit.
#[tactic(auto, unfolding(crate::specs::Operands::decimal))]
fn decimal(part: &[u8], most: u64) -> Option<u64>
    ensures { of.number_as result ≡ of.decimal most part.now }
{
    if !has_decimal_form(part) {
        return None;
    }
    let n = read_number(part, Digits::Decimal)?;
    if most < n { None } else { Some(n) }
}

// The number of a register.
#[tactic(auto, unfolding(crate::specs::Operands::register))]
fn register(part: &[u8]) -> Option<u64>
    ensures { of.number_as result ≡ of.register part.now }
{
    match part {
        [b'$', digits @ ..] => decimal(digits, 31),
        _ => None,
    }
}

// The 16 bits of a signed offset.
#[tactic(auto, unfolding(crate::specs::Operands::offset))]
fn offset(part: &[u8]) -> Option<u64>
    ensures { of.number_as result ≡ of.offset part.now }
{
    match part {
        [b'-', digits @ ..] => {
            let n = decimal(digits, 32768)?;
            Some((65536 - n) % 65536)
        }
        _ => decimal(part, 32767),
    }
}

// The word of eight hexadecimal digits.
#[tactic(auto, unfolding(crate::specs::Operands::hexadecimal))]
fn hexadecimal(part: &[u8]) -> Option<u64>
    ensures { of.number_as result ≡ of.hexadecimal part.now }
{
    if part.len() != 8 {
        return None;
    }
    read_number(part, Digits::Hexadecimal)
}

// 0, where the part is the one byte. It stays a number: `operands.specs.Operands.shaped` answers
// one in every shape.
#[tactic(auto, unfolding(crate::specs::Operands::mark))]
fn mark(part: &[u8], byte: u8) -> Option<u64>
    ensures { of.number_as result ≡ of.mark byte part.now }
{
    match part {
        [only] if *only == byte => Some(0),
        _ => None,
    }
}

// What a part says in a shape; 0 for a mark.
pub fn shaped(part: &[u8], shape: Shape) -> Option<u64>
    ensures { of.number_as result ≡ of.shaped shape part.now }
{
    match shape {
        Shape::Register => register(part),
        Shape::Offset => offset(part),
        Shape::Word => hexadecimal(part),
        Shape::Comma => mark(part, b','),
        Shape::Colon => mark(part, b':'),
        Shape::Open => mark(part, b'('),
        Shape::Close => mark(part, b')'),
    }
}

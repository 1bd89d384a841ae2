// Numbers, written by digits.
ghost use Rattle.std.specs.Prelude.{◌≡◌, ◌≤◌, length};
ghost use Rattle.operands.specs.Operands as of;

// What a number is written in. A label is a number too, whose digits are letters. It is an enum and
// no closure: `operands.specs.Operands.number` speaks of it.
#[derive(Clone, Copy)]
pub(crate) enum Digits {
    Decimal,
    Hexadecimal,
    Letters,
}

// What a byte is worth as a digit, if it is one.
#[tactic(auto, unfolding(crate::specs::Operands::within))]
fn digit(kind: Digits, byte: u8) -> Option<u64>
    ensures { result ≡ of.digit_read kind byte }
{
    match (kind, byte) {
        (Digits::Decimal | Digits::Hexadecimal, b'0'..=b'9') => Some(u64::from(byte - b'0')),
        (Digits::Hexadecimal, b'A'..=b'F') => Some(u64::from(byte - b'A') + 10),
        (Digits::Hexadecimal, b'a'..=b'f') => Some(u64::from(byte - b'a') + 10),
        (Digits::Letters, b'A'..=b'Z' | b'a'..=b'z') => Some(u64::from(byte)),
        _ => None,
    }
}

fn base(kind: Digits) -> u64
    ensures { result ≡ of.base kind }
{
    match kind {
        Digits::Decimal => 10,
        Digits::Hexadecimal => 16,
        Digits::Letters => 256,
    }
}

// The number that at most eight digits write.
pub(crate) fn read_number(part: &[u8], kind: Digits) -> Option<u64>
    requires { length part.now ≤ 8 }
    ensures { of.number_as result ≡ of.number kind part.now }
{
    let base = base(kind);
    let mut value = 0;
    for byte in part {
        value = value * base + digit(kind, *byte)?;
    }
    Some(value)
}

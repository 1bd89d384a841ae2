// One line of a sheet.
ghost use Rattle.std.specs.Prelude.{◌≡◌, length};
ghost use Rattle.sheet.specs.Lines as of;

use crate::digits::digit_of;

// The word of eight digits, or that one of them is none.
fn word(digits: &[u8]) -> Option<u32>
    requires { length digits.now ≡ 8 }
    ensures { result ≡ of.word digits.now }
{
    let mut value = 0u32;
    for byte in digits {
        value = value * 16 + digit_of(*byte)?;
    }
    Some(value)
}

// The word of the line with which `text` begins, or that this is no line.
#[tactic(auto, unfolding(crate::specs::Lines::line))]
pub(crate) fn first(text: &[u8]) -> Option<u32>
    ensures { result ≡ of.line text.now }
{
    if text.len() < 9 || text[8] != b'\n' {
        return None;
    }
    word(&text[0..8])
}

// The program's arguments.
ghost use Rattle.std.specs.Prelude.{◌≤◌, length};

use crate::faults::Fault;
use std::env::FillError;
use std::rt::Env;
use terms::{Count, Cycles, Refusal};

// The argument at a place, which is put at the start of `text`: no bytes where there is no such
// argument, or no room for it. So it has at most as many bytes as `text`.
pub(crate) fn word<'a>(rt: &HostRuntime, place: usize, text: &'a mut [u8]) -> &'a [u8]
    ensures { length result.now ≤ length text.old }
{
    match rt.arg(place, text) {
        Ok(n) => &text[..n],
        Err(_) => &[],
    }
}

// Whether there is an argument at a place, however long it is.
fn is_given(rt: &HostRuntime, place: usize) -> bool {
    !matches!(rt.arg(place, &mut []), Err(FillError::NotPresent))
}

// Whether the argument at a place is the last one.
pub(crate) fn is_last(rt: &HostRuntime, place: usize) -> bool {
    is_given(rt, place) && !is_given(rt, place.saturating_add(1))
}

// Whether the first argument asks for a dump.
pub(crate) fn asks_wave(rt: &HostRuntime) -> bool {
    let mut text = [0u8; 16];
    word(rt, 1, &mut text) == b"--vcd".as_slice()
}

// A decimal number, 2^32 - 1 for that and more; none where a byte is no digit, or there is none.
// The library's `parse` would take a sign, and nothing above 2^32 - 1.
fn number_of(digits: &[u8]) -> Option<u32> {
    if digits.is_empty() {
        return None;
    }
    let mut value: u32 = 0;
    for digit in digits {
        if !digit.is_ascii_digit() {
            return None;
        }
        value = value
            .saturating_mul(10)
            .saturating_add(u32::from(*digit - b'0'));
    }
    Some(value)
}

// The budget that an argument gives.
pub(crate) fn budget(text: &[u8]) -> Result<Cycles, Fault<'_>> {
    let cycles = Cycles(number_of(text).ok_or(Fault::NoNumber(text))?);
    if !cycles.is_allowed() {
        return Err(Fault::Refused(Refusal::Budget));
    }
    Ok(cycles)
}

// What a line asks. Each case has a module of its own, and its word stands here, as a line has it.
mod average;
mod check_store;
mod decode;
mod encode;
mod load;
mod read_store;
mod single_run;
mod store_run;
mod unit_run;
mod write_store;

use crate::answers::{Failure, Output};
use crate::numbers::Numbers;

// Answers the case that the word names, with the numbers that follow it. `room` is for those of a
// program.
pub(crate) fn answer(
    word: &[u8],
    numbers: Numbers<'_>,
    room: &mut [u32],
    out: &mut Output,
) -> Result<(), Failure> {
    match word {
        b"run" => unit_run::answer(numbers, out),
        b"store" => store_run::answer(numbers, out),
        b"single" => single_run::answer(numbers, out),
        b"load" => load::answer(numbers, room, out),
        b"check" => check_store::answer(numbers, out),
        b"read" => read_store::answer(numbers, out),
        b"write" => write_store::answer(numbers, out),
        b"decode" => decode::answer(numbers, out),
        b"encode" => encode::answer(numbers, out),
        b"average" => average::answer(numbers, out),
        _ => Err(Failure::BadCase),
    }
}

// watch: a sheet in, the machine clock by clock out. ./watch UNIT CYCLES < SHEET prints a table,
// ./watch --vcd UNIT CYCLES < SHEET a value change dump.
#![tactic(auto)]

mod arguments;
mod asked;
mod engines;
mod faults;
mod input;
mod output;
mod table;
mod wave;

use arguments::word;
use asked::Asked;
use faults::Fault;

// The sheet on standard input; 577 bytes of it are one too many.
fn sheet_given(rt: &HostRuntime) -> Result<[u32; 64], Fault<'static>> {
    let mut text = [0u8; 577];
    let Ok(held) = input::fill(&mut rt.stdin(), &mut text) else {
        return Err(Fault::BadSheet);
    };
    sheet::parse(&text[..held]).ok_or(Fault::BadSheet)
}

// The sheet on standard input, run under a unit with a budget. What is wrong with these two is said
// before the input is read.
fn watched<'a>(
    rt: &HostRuntime,
    unit: &'a [u8],
    cycles: &'a [u8],
    wave: bool,
) -> Result<(), Fault<'a>> {
    let engine = engines::named(rt, unit)?;
    let budget = arguments::budget(cycles)?;
    let sheet = sheet_given(rt)?;
    let asked = Asked {
        engine,
        sheet,
        budget,
    };
    if wave {
        wave::dump(rt.stdout(), &asked);
    } else {
        table::print(rt.stdout(), &asked);
    }
    Ok(())
}

fn main(rt: HostRuntime) {
    let wave = arguments::asks_wave(&rt);
    let (unit, cycles) = if wave { (2, 3) } else { (1, 2) };
    if !arguments::is_last(&rt, cycles) {
        Fault::Usage.print(rt.stderr());
        return;
    }
    let mut name = [0u8; 4096];
    let mut number = [0u8; 4096];
    let unit = word(&rt, unit, &mut name);
    let cycles = word(&rt, cycles, &mut number);
    if let Err(fault) = watched(&rt, unit, cycles, wave) {
        fault.print(rt.stderr());
    }
}

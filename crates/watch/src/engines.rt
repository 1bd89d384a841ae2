// What the machine runs under: a fixed unit, or a store from a file.
use crate::faults::Fault;
use crate::input::fill;
use control::{MachineRun, Unit};
use datapath::{Control, Machine, tick};
use microcode::Store;
use std::fs::File;
use std::io::ErrorKind;
use std::str;
use storefile::read_file;
use terms::{Cycles, Outcome, Refusal};
use walks::check;
use words::fields::opcode;

// A fixed unit, or a store that the check admits.
#[derive(Clone, Copy)]
pub(crate) enum Engine {
    Fixed(Unit),
    Own(Store),
}

impl Engine {
    // Whether the control is a sequencer, with AddrCtl.
    pub(crate) fn is_sequenced(&self) -> bool {
        matches!(self, Engine::Fixed(Unit::Sequencer) | Engine::Own(_))
    }

    // What the control gives for the latches of a machine.
    pub(crate) fn gives(&self, machine: &Machine) -> Control {
        let latches = machine.latches;
        match self {
            Engine::Fixed(unit) => control::gives(*unit, latches.state, opcode(latches.ir)),
            Engine::Own(store) => microcode::gives(store, latches.state, opcode(latches.ir)),
        }
    }

    // The machine one cycle further: under a fixed unit a run with budget 1.
    pub(crate) fn cycle(&self, machine: Machine, image: &mut [u32]) -> Result<Machine, Refusal> {
        match self {
            Engine::Fixed(unit) => {
                let ran = control::run(*unit, machine, image, Cycles(1));
                match ran.outcome {
                    Outcome::Spent => Ok(ran.machine),
                    Outcome::Stopped(refusal) => Err(refusal),
                }
            }
            Engine::Own(_) => {
                let mut registers = machine.registers;
                let latches = tick(self.gives(&machine), machine.latches, &mut registers, image)?;
                Ok(Machine { registers, latches })
            }
        }
    }

    // The run of an image from reset.
    pub(crate) fn run(&self, image: &mut [u32], budget: Cycles) -> MachineRun {
        let machine = datapath::reset();
        match self {
            Engine::Fixed(unit) => control::run(*unit, machine, image, budget),
            Engine::Own(store) => control::run_store(store, machine, image, budget),
        }
    }
}

// The engine that an argument names.
pub(crate) fn named<'a>(rt: &HostRuntime, name: &'a [u8]) -> Result<Engine, Fault<'a>> {
    match name {
        b"table" => Ok(Engine::Fixed(Unit::StateTable)),
        b"rom" => Ok(Engine::Fixed(Unit::Rom)),
        b"pla" => Ok(Engine::Fixed(Unit::Pla)),
        b"sequencer" => Ok(Engine::Fixed(Unit::Sequencer)),
        _ => Ok(Engine::Own(from_file(rt, name)?)),
    }
}

// Opens a file to read it. A name that is no text has no file that could be opened.
fn open(rt: &HostRuntime, name: &[u8]) -> Result<File, ErrorKind> {
    let path = str::from_utf8(name).map_err(|_| ErrorKind::InvalidFilename)?;
    File::open(rt, path).map_err(|e| e.kind())
}

// What is wrong where a file cannot be opened: a word with neither a point nor a slash was meant as
// a unit.
fn unopened(name: &[u8], why: ErrorKind) -> Fault<'_> {
    if why != ErrorKind::NotFound {
        Fault::NoReading(name)
    } else if name.contains(&b'/') || name.contains(&b'.') {
        Fault::NoFile(name)
    } else {
        Fault::NoUnit(name)
    }
}

// The store that a file's bytes give, if the check admits it.
fn from_bytes(bytes: &[u8]) -> Result<Store, Refusal> {
    let store = read_file(bytes)?;
    check(&store)?;
    Ok(store)
}

// The store in a file; 198 bytes of it are one too many.
fn from_file<'a>(rt: &HostRuntime, name: &'a [u8]) -> Result<Store, Fault<'a>> {
    let mut file = open(rt, name).map_err(|why| unopened(name, why))?;
    let mut bytes = [0u8; 198];
    let Ok(held) = fill(&mut file, &mut bytes) else {
        return Err(Fault::NoReading(name));
    };
    Ok(from_bytes(&bytes[..held])?)
}

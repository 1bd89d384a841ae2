// The fourteen refusals, the kinds of access that some name, and how a run ends.
ghost use Rattle.std.specs.Prelude.{◌≡◌};
ghost use Rattle.terms.specs.Answers.{pick, refused};
ghost use Rattle.terms.specs.Refusals.{kind_number, number_of, outcome_of, end_number};
ghost use Rattle.terms.specs.Refusals.{refusal_of, reply_of, yes};

use crate::counts::ByteAddress;

// What memory is accessed for.
#[derive(Clone, Copy)]
pub enum AccessKind {
    // 0: an instruction is read
    Fetch,
    // 1: a word of data is read
    Load,
    // 2: a word is written
    Store,
    // 3: a program is copied into the image
    Loader,
}

// A "no", by the case of document 01's table. That of a memory access has the byte address at which
// it was refused, and what it was for.
#[derive(Clone, Copy)]
pub enum Refusal {
    // 1: address not a multiple of 4
    Misaligned {
        address: ByteAddress,
        kind: AccessKind,
    },
    // 2: address outside the image; program does not fit at its base
    Outside {
        address: ByteAddress,
        kind: AccessKind,
    },
    // 3: opcode without an entry at a dispatch
    NoEntry,
    // 4: ALUOp 2 and unknown function
    UnknownFunction,
    // 5: start state not the engine's
    StartState,
    // 6: image size
    ImageSize,
    // 7: budget
    Budget,
    // 8: field to encode too large
    FieldTooLarge,
    // 9: file or file buffer not 197 bytes
    FileSize,
    // 10: mark
    FileMark,
    // 11: version
    FileVersion,
    // 12: store word of 2^18 or more, or entry 16 to 254
    StoreRange,
    // 13: a walk rule broken
    WalkRule {
        opcode: u8,
        state: u8,
        rule: u8,
    },
    // 14: average over zero instructions
    NoInstructions,
}

// How a run ends: its budget is spent, or it stopped with a refusal. It is no `Result`, which would
// call a spent budget a success: the order names the two, "spent" and "stopped".
#[derive(Clone, Copy)]
pub enum Outcome {
    Spent,
    Stopped(Refusal),
}

// Yes where it holds, else the refusal.
pub fn only_if(holds: bool, refusal: Refusal) -> Result<(), Refusal>
    ensures { reply_of result ≡ pick holds yes (refused (refusal_of refusal)) }
{
    if holds { Ok(()) } else { Err(refusal) }
}

impl AccessKind {
    // Its number, which stands behind the address in an answer. No `From`: a name says which
    // number.
    pub fn number(self) -> u32
        ensures { result ≡ kind_number self }
    {
        match self {
            AccessKind::Fetch => 0,
            AccessKind::Load => 1,
            AccessKind::Store => 2,
            AccessKind::Loader => 3,
        }
    }
}

impl Refusal {
    // The number under which document 01 lists it. No `From`: a name says which number.
    pub fn number(self) -> u32
        ensures { result ≡ number_of self }
    {
        match self {
            Refusal::Misaligned { .. } => 1,
            Refusal::Outside { .. } => 2,
            Refusal::NoEntry => 3,
            Refusal::UnknownFunction => 4,
            Refusal::StartState => 5,
            Refusal::ImageSize => 6,
            Refusal::Budget => 7,
            Refusal::FieldTooLarge => 8,
            Refusal::FileSize => 9,
            Refusal::FileMark => 10,
            Refusal::FileVersion => 11,
            Refusal::StoreRange => 12,
            Refusal::WalkRule { .. } => 13,
            Refusal::NoInstructions => 14,
        }
    }
}

impl Outcome {
    // 0 where the budget is spent, else the number of the refusal. No `From`: a name says which
    // number.
    pub fn number(self) -> u32
        ensures { result ≡ end_number (outcome_of self) }
    {
        match self {
            Outcome::Spent => 0,
            Outcome::Stopped(refusal) => refusal.number(),
        }
    }
}

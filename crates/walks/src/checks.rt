// The check of a store: each word and entry in its range, and the walk of each opcode within the
// rules.
ghost use Rattle.std.specs.Prelude.{◌≡◌, ◌&&◌, nat_lt};
ghost use Rattle.terms.specs.Tables.{among};
ghost use Rattle.terms.specs.Answers.{pick};
ghost use Rattle.terms.specs.Refusals.{reply_of};
ghost use Rattle.walks.specs.Checking.{consent_of, Checks, Surveys};
ghost use Rattle.walks.specs.Following.{breach_as, FollowsAll};
ghost use Rattle.walks.specs.Walk.{on_walk};

use crate::breaches::Breach;
use crate::following::follow;
use microcode::{Store, in_range};
use terms::{Refusal, only_if};

// What a run asks of its store: the check's reply, and whether its start state is on the walk of
// its opcode.
#[derive(Clone, Copy)]
pub struct Surveyed {
    pub reply: Result<(), Refusal>,
    pub met: bool,
}

// Whether the walk of an opcode keeps the rules, or 13.
fn charge(opcode: u8, breach: Option<Breach>) -> Result<(), Refusal>
    ensures { reply_of result ≡ consent_of (breach_as opcode breach) }
{
    match breach {
        None => Ok(()),
        Some(Breach { state, rule }) => Err(Refusal::WalkRule {
            opcode,
            state,
            rule,
        }),
    }
}

// Whether a state is one of the sixteen and among those of a walk.
#[tactic(auto, using(crate::proofs::Padding::among_any))]
fn is_among(states: &[u8; 16], state: u32) -> bool
    ensures { result ≡ (nat_lt state 16 && among state states.now) }
{
    state < 16 && states.contains(&(state as u8))
}

// The walks of all 64 opcodes, followed once. Store, opcode and state are three things asked of the
// check, of which each function takes what it needs; a struct would only carry them from here on.
fn follow_all(store: &Store, opcode: u32, state: u32) -> Surveyed
    ensures { FollowsAll store.now opcode state result }
{
    let mut reply = Ok(());
    let mut met = false;
    for code in 0..64u8 {
        let followed = follow(store, u32::from(code));
        reply = reply.and(charge(code, followed.breach));
        if u32::from(code) == opcode {
            met = is_among(&followed.walk.states, state);
        }
    }
    Surveyed { reply, met }
}

// Whether a state is on the walk of an opcode: as found where all 64 were followed; the walk of
// another opcode, which has no entry in either ROM, is followed for it.
fn on_walk(store: &Store, opcode: u32, state: u32, found: bool) -> bool
    ensures { result ≡ pick (nat_lt opcode 64) found (on_walk store.now opcode state) }
{
    if opcode < 64 {
        return found;
    }
    is_among(&follow(store, opcode).walk.states, state)
}

// The check's reply, and whether a state is on the walk of an opcode: the ranges are looked at once
// and the walks followed once.
pub fn survey(store: &Store, opcode: u32, state: u32) -> Surveyed
    ensures { Surveys store.now opcode state result }
{
    let ranged = only_if(in_range(store), Refusal::StoreRange);
    let walked = follow_all(store, opcode, state);
    let reply = ranged.and(walked.reply);
    let met = on_walk(store, opcode, state, walked.met);
    Surveyed { reply, met }
}

// Checks a store: 12, then 13 with the first breach.
pub fn check(store: &Store) -> Result<(), Refusal>
    ensures { Checks store.now result }
{
    survey(store, 0, 0).reply
}

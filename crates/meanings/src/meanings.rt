// What a refusal means, in words.
ghost use Rattle.page.specs.Lent.{Becomes};
ghost use Rattle.meanings.specs.Meanings as of;

use page::Page;
use terms::{AccessKind, ByteAddress, Refusal};

// What a walk rule asks.
fn rule_text(page: &mut Page<'_>, rule: u8)
    ensures { Becomes page.old page.new (of.rule_text rule) }
{
    match rule {
        1 => page.text(b"state 0 has MemRead and IRWrite, not IorD, and AddrCtl 3"),
        2 => page.text(b"no state but 0 has IRWrite"),
        3 => page.text(b"no state has MemRead with MemWrite"),
        4 => page.text(b"ALUOp and PCSource are never 3"),
        5 => page.text(
            b"after RegWrite or MemWrite no MemRead, MemWrite, ALUOp 2 or missing entry",
        ),
        _ => page.text(b"no state is entered twice, and state 15 never counts on"),
    }
}

// A name and its number.
#[tactic(auto, unfolding(crate::specs::Meanings::with_number))]
fn named(page: &mut Page<'_>, name: &[u8], number: u8)
    ensures { Becomes page.old page.new (of.with_number name.now number) }
{
    page.text(name);
    page.decimal(u32::from(number));
}

// A breach of a walk rule: opcode, state, rule, and what the rule asks.
#[tactic(auto, unfolding(crate::specs::Meanings::breach, crate::specs::Meanings::with_number))]
fn breach(page: &mut Page<'_>, opcode: u8, state: u8, rule: u8)
    ensures { Becomes page.old page.new (of.breach opcode state rule) }
{
    named(page, b"opcode ", opcode);
    named(page, b", state ", state);
    named(page, b", rule ", rule);
    page.text(b": ");
    rule_text(page, rule);
}

// What memory was accessed for.
fn kind_text(page: &mut Page<'_>, kind: AccessKind)
    ensures { Becomes page.old page.new (of.kind_text kind) }
{
    match kind {
        AccessKind::Fetch => page.text(b"fetch"),
        AccessKind::Load => page.text(b"load"),
        AccessKind::Store => page.text(b"store"),
        AccessKind::Loader => page.text(b"loader"),
    }
}

// A refused access to memory: what it was for, where, and why.
#[tactic(auto, unfolding(crate::specs::Meanings::access_text))]
fn access(page: &mut Page<'_>, address: ByteAddress, kind: AccessKind, why: &[u8])
    ensures { Becomes page.old page.new (of.access_text address.0 kind why.now) }
{
    kind_text(page, kind);
    page.text(b" at byte ");
    page.decimal(address.as_word());
    page.text(why);
}

// What a refusal means.
fn meaning(page: &mut Page<'_>, refusal: Refusal)
    ensures { Becomes page.old page.new (of.meaning refusal) }
{
    match refusal {
        Refusal::Misaligned { address, kind } => {
            access(page, address, kind, b": not a multiple of 4")
        }
        Refusal::Outside { address, kind } => access(page, address, kind, b": outside the image"),
        Refusal::NoEntry => page.text(b"the opcode has no entry at this dispatch"),
        Refusal::UnknownFunction => page.text(b"ALUOp is 2 and the function is unknown"),
        Refusal::StartState => page.text(b"the engine does not have the start state"),
        Refusal::ImageSize => page.text(b"the image has not 1 to 16384 words"),
        Refusal::Budget => page.text(b"the budget is above 1000000 cycles"),
        Refusal::FieldTooLarge => page.text(b"a field to encode is too large"),
        Refusal::FileSize => page.text(b"the file has not 197 bytes"),
        Refusal::FileMark => page.text(b"the file does not begin with the mark MCS"),
        Refusal::FileVersion => page.text(b"the version of the file is not 1"),
        Refusal::StoreRange => page.text(
            b"a word of the store has more than 18 bits, or an entry is 16 to 254",
        ),
        Refusal::WalkRule {
            opcode,
            state,
            rule,
        } => breach(page, opcode, state, rule),
        Refusal::NoInstructions => page.text(b"an average over no instructions"),
    }
}

// A refusal by its number, and what it means.
#[tactic(auto, unfolding(crate::specs::Meanings::refusal_text))]
pub fn refusal_text(page: &mut Page<'_>, refusal: Refusal)
    ensures { Becomes page.old page.new (of.refusal_text refusal) }
{
    page.decimal(refusal.number());
    page.text(b": ");
    meaning(page, refusal);
}

// The single-cycle machine beside the other one.
ghost use Rattle.std.specs.Prelude.{◌≡◌, ◌+◌};
ghost use Rattle.page.specs.Lent.{Becomes};
ghost use Rattle.screen.specs.Sides as of;
ghost use Rattle.screen.specs.Sides.{along};

use page::Page;
use single::SingleCycle;
use terms::{Instructions, Outcome};

// The single-cycle machine after as many instructions, or as it was where it stopped.
#[derive(Clone, Copy)]
pub struct Side {
    pub instructions: Instructions,
    pub machine: SingleCycle,
    pub outcome: Outcome,
}

// A machine as a programmer sees it: registers and PC, and the words of memory.
#[derive(Clone, Copy)]
pub struct Seen<'a> {
    pub machine: SingleCycle,
    pub image: &'a [u32],
}

// One more, where two numbers differ.
fn counted(count: u32, ours: u32, theirs: u32) -> u32
    ensures { result ≡ of.counted count ours theirs }
{
    if ours == theirs {
        return count;
    }
    count.wrapping_add(1)
}

// How many of the numbers at the same place differ.
#[tactic(auto, using(crate::proofs::Along::along_steps))]
fn differing(ours: &[u32], theirs: &[u32]) -> u32
    ensures { result ≡ of.differing ours.now theirs.now }
{
    let mut count = 0;
    for (our, their) in ours.iter().zip(theirs) {
        count = counted(count, *our, *their);
    }
    count
}

// A place by name where two numbers differ, if there is room up to a place of the page.
#[tactic(auto, unfolding(crate::specs::Sides::name_place, page::specs::Lent::seen))]
fn name_place(page: &mut Page<'_>, to: usize, name: &[u8], index: usize, ours: u32, theirs: u32)
    ensures { Becomes page.old page.new (of.name_place to name.now index ours theirs) }
{
    if ours != theirs && page.place <= to {
        page.text(name);
        page.decimal((index % 4294967296) as u32);
    }
}

// The places that differ of two register files, or of two memories.
#[tactic(auto, using(crate::proofs::Along::along_steps))]
fn name_places(page: &mut Page<'_>, to: usize, name: &[u8], ours: &[u32], theirs: &[u32])
    ensures { Becomes page.old page.new (along (of.name_place to name.now) 0 ours.now theirs.now) }
{
    for (index, (our, their)) in ours.iter().zip(theirs).enumerate() {
        name_place(page, to, name, index, *our, *their);
    }
}

// How the single-cycle machine stopped, if it did.
fn stopped(page: &mut Page<'_>, outcome: Outcome)
    ensures { Becomes page.old page.new (of.stopped outcome) }
{
    match outcome {
        Outcome::Spent => (),
        Outcome::Stopped(refusal) => {
            page.text(b", stopped with ");
            page.decimal(refusal.number());
        }
    }
}

// The places at which the two differ, by name, as long as there is room before a place.
#[tactic(auto, unfolding(crate::specs::Sides::names, crate::specs::Sides::name_pc))]
fn names(page: &mut Page<'_>, to: usize, ours: Seen<'_>, theirs: Seen<'_>)
    ensures { Becomes page.old page.new (of.names to ours.entry.machine ours.entry.image.now
        theirs.entry.machine theirs.entry.image.now) }
{
    if ours.machine.pc != theirs.machine.pc {
        page.text(b" PC");
    }
    name_places(
        page,
        to,
        b" $",
        &ours.machine.registers,
        &theirs.machine.registers,
    );
    name_places(page, to, b" word ", ours.image, theirs.image);
}

// How many places differ: PC, registers and words of memory.
#[tactic(auto, unfolding(crate::specs::Sides::places))]
fn places(ours: Seen<'_>, theirs: Seen<'_>) -> u32
    ensures { result ≡ of.places ours.entry.machine ours.entry.image.now
        theirs.entry.machine theirs.entry.image.now }
{
    let count = u32::from(ours.machine.pc != theirs.machine.pc);
    let count = count.wrapping_add(differing(&ours.machine.registers, &theirs.machine.registers));
    count.wrapping_add(differing(ours.image, theirs.image))
}

// The single-cycle machine: after which instruction, its PC, and how it stopped.
#[tactic(auto, unfolding(crate::specs::Sides::side_text))]
fn named(page: &mut Page<'_>, side: Side)
    ensures { Becomes page.old page.new (of.side_text side) }
{
    page.text(b"        -- instruction ");
    page.decimal(side.instructions.0);
    page.text(b": single-cycle machine at PC ");
    page.hex(side.machine.pc.as_word());
    stopped(page, side.outcome);
}

// How many places differ.
#[tactic(auto, unfolding(crate::specs::Sides::told))]
fn told(page: &mut Page<'_>, count: u32)
    ensures { Becomes page.old page.new (of.told count) }
{
    page.text(b", differs in ");
    page.decimal(count);
    page.put(b':');
}

// The line at a return to fetch: the single-cycle machine after as many instructions with its
// image, and where it differs from the other, of which `ours` has what both have.
#[tactic(auto, unfolding(crate::specs::Sides::beside, page::specs::Lent::seen))]
pub fn beside(page: &mut Page<'_>, ours: Seen<'_>, side: Side, image: &[u32])
    ensures { Becomes page.old page.new
        (of.beside ours.entry.machine ours.entry.image.now side image.now) }
{
    let theirs = Seen {
        machine: side.machine,
        image,
    };
    let to = page.place.wrapping_add(112);
    named(page, side);
    let count = places(ours, theirs);
    if count == 0 {
        page.text(b", no difference\n");
    } else {
        told(page, count);
        names(page, to, ours, theirs);
        page.put(b'\n');
    }
}

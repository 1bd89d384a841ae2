// What a value change is written as.
ghost use Rattle.std.specs.Prelude.{◌≡◌, MatchOption};
ghost use Rattle.page.specs.Lent.{Becomes};
ghost use Rattle.std.specs.Option.{IsSomeAnd};
ghost use Rattle.dump.specs.Waves as of;

use names::instruction;
use page::Page;

// A value before a clock and after it. At the start nothing was before.
#[derive(Clone, Copy)]
pub(crate) struct Change<T> {
    pub old: Option<T>,
    pub new: T,
}

impl<T: Copy> Change<T> {
    // The change of what is read of the value.
    pub(crate) fn map<U, F: Fn(T) -> U>(self, read: F) -> Change<U>
        requires { F.IsAlwaysCallable read }
        ensures old { MatchOption self.old (result.old ≡ None)
            (λ x. IsSomeAnd result.old (F.post read x)) }
        ensures new { F.post read self.new result.new }
    {
        Change {
            old: self.old.map(&read),
            new: read(self.new),
        }
    }
}

impl Change<u32> {
    // Whether the value is to be written: at the start, or where it is another than before.
    fn is_new(self) -> bool
        ensures { result ≡ of.is_new self.old self.new }
    {
        self.old != Some(self.new)
    }
}

// A value of some bits, if it is new.
#[tactic(auto, unfolding(crate::specs::Waves::vector))]
pub(crate) fn vector(page: &mut Page<'_>, change: Change<u32>, width: u32, letter: u8)
    ensures { Becomes page.old page.new (of.vector change width letter) }
{
    if change.is_new() {
        page.put(b'b');
        page.bits(width, change.new);
        page.put(b' ');
        page.put(letter);
        page.put(b'\n');
    }
}

// A signal of one bit, if it is new.
#[tactic(auto, unfolding(crate::specs::Waves::wire))]
pub(crate) fn wire(page: &mut Page<'_>, change: Change<bool>, letter: u8)
    ensures { Becomes page.old page.new (of.wire change letter) }
{
    if change.map(u32::from).is_new() {
        page.bits(1, u32::from(change.new));
        page.put(letter);
        page.put(b'\n');
    }
}

// The text of an instruction as the bits of 20 bytes, if it is new.
#[tactic(auto, unfolding(crate::specs::Waves::spelled, page::specs::Lent::seen))]
pub(crate) fn spelled(page: &mut Page<'_>, change: Change<u32>)
    ensures { Becomes page.old page.new (of.spelled change) }
{
    if change.is_new() {
        let mut room = [b' '; 20];
        let mut name = Page::at(&mut room, 0);
        instruction(&mut name, change.new);
        page.put(b'b');
        octets(page, name.bytes);
        page.text(b" t\n");
    }
}

// The bits of some bytes.
#[tactic(auto, using(crate::proofs::Written::octets_next, crate::proofs::Written::octets_end))]
fn octets(page: &mut Page<'_>, bytes: &[u8])
    ensures { Becomes page.old page.new (of.octets bytes.now) }
{
    for byte in bytes {
        page.bits(8, u32::from(*byte));
    }
}

// The table of a text: its lines by their labels, in 4,096 chains.
ghost use Rattle.std.specs.Prelude.{◌≡◌, ◌+◌, ◌*◌, ◌%◌, ◌^◌, ◌<◌};
ghost use Rattle.std.specs.Prelude.{length, Some, None, [], replicate};
ghost use Rattle.terms.specs.Answers.{pick};
ghost use Rattle.source.specs.Lines.{lines_of};
ghost use Rattle.assembler.specs.Chains.{hash_of, entry_at, Chained};
ghost use Rattle.assembler.specs.Labels.{same_label};

use crate::answers::AssemblyError;
use crate::filled::Filled;
use crate::lines::Lines;
use operands::Label;
use source::read_heading;
use terms::ByteAddress;

// A line in the table.
#[derive(Clone, Copy, Default)]
pub(crate) struct Entry {
    label: Option<Label>,
    // how many words stand above it
    words_above: u16,
    // the last line above it whose label has the same hash
    next: Option<u16>,
}

// The lines, and the last one of each hash: in lent places and in no map, since the library
// allocates nothing.
#[derive(Drop)]
pub(crate) struct Table<'a> {
    heads: &'a mut [Option<u16>],
    lines: Filled<'a, Entry>,
    ghost sized: { length heads.now ≡ 4096 },
    ghost chained: { Chained heads.now lines },
}

// The chain that a line is in, by its label.
#[tactic(auto, unfolding(crate::specs::Chains::hash_of))]
fn hash(label: Option<Label>) -> usize
    ensures { (result ≡ hash_of label) × (result < 4096) }
{
    match label {
        None => 0,
        Some(label) => ((label.high % 1000003 + label.low % 999983) % 4093) as usize + 1,
    }
}

// Whether a line has the label.
fn has(line: Option<Label>, label: Label) -> bool
    ensures { result ≡ same_label (Some label) line }
{
    line == Some(label)
}

// No chain has a line. It is a function of its own, so that its callers know what it holds.
pub(crate) fn no_heads() -> [Option<u16>; 4096]
    ensures { result ≡ replicate 4096 None }
{
    [None; 4096]
}

// Places for the lines. In a function of its own, they are made where the caller has them.
pub(crate) fn no_lines() -> [Entry; 4096]
    ensures { length result ≡ 4096 }
{
    [Entry::default(); 4096]
}

impl<'a> Table<'a> {
    ghost use Rattle.assembler.specs.Table.{found, above, target, target_as, Entered, Surveyed};

    // The first line that has the label, if one has. The loop follows links and counts nothing.
    fn find(&self, label: Label) -> Option<usize>
        ensures { result ≡ found self.now.lines label }
    {
        let mut first = None;
        let mut link = self.heads[hash(Some(label))];
        while let Some(line) = link {
            let line = usize::from(line);
            let entry = self.lines.as_slice()[line];
            first = has(entry.label, label).then_some(line).or(first);
            link = entry.next;
        }
        first
    }

    // A table without lines.
    pub(crate) fn new(heads: &'a mut [Option<u16>], places: &'a mut [Entry]) -> Table<'a>
        requires { (heads.old ≡ replicate 4096 None) × (length places.old ≡ 4096) }
        ensures { result.lines ≡ [] }
    {
        Table {
            heads,
            lines: Filled::new(places),
        }
    }

    // Enters a line: its label, and how many words stand above it.
    fn enter(&mut self, label: Option<Label>, words_above: u16)
        requires { length self.old.lines < 4096 }
        ensures { Entered label words_above self.old self.new }
    {
        let chain = hash(label);
        let next = self.heads[chain];
        self.heads[chain] = Some(self.lines.len() as u16);
        self.lines.push(Entry {
            label,
            words_above,
            next,
        });
    }

    // Enters the lines of a text, of which there are up to 4,096: no line behind them is read.
    pub(crate) fn survey(&mut self, text: &[u8]) -> Result<(), AssemblyError>
        requires { self.old.lines ≡ [] }
        ensures { Surveyed (lines_of text.now) result self.new }
    {
        let mut lines = Lines(text);
        let mut words = 0;
        while self.lines.len() < 4096 {
            let Some(line) = lines.next() else {
                return Ok(());
            };
            let heading = read_heading(line);
            self.enter(heading.label, words);
            words += u16::from(heading.has_word);
        }
        if lines.0.len() == 0 {
            Ok(())
        } else {
            Err(AssemblyError::TooManyLines)
        }
    }

    // Whether a label is that of a line above a line.
    pub(crate) fn is_defined_above(&self, label: Option<Label>, line: usize) -> bool
        ensures { result ≡ above self.now.lines label line }
    {
        match label {
            Some(label) => self.find(label).is_some_and(|first| first < line),
            None => false,
        }
    }

    // The address of a line.
    pub(crate) fn address_of(&self, line: usize, given: ByteAddress) -> ByteAddress
        requires { line < length self.now.lines }
        ensures { result.0
            ≡ (given.0 + 4 * (entry_at self.now.lines line).words_above) % 2 ^ 32 }
    {
        let past = ByteAddress::past(usize::from(self.lines.as_slice()[line].words_above));
        ByteAddress(given.0.wrapping_add(past.0))
    }

    // The address that a name stands for, if it is known; the given one where there is no name.
    pub(crate) fn target_of(&self, name: Option<Label>, given: ByteAddress) -> Option<ByteAddress>
        ensures { target_as result ≡ target self.now.lines given.0 name }
    {
        match name {
            Some(label) => {
                let line = self.find(label)?;
                Some(self.address_of(line, given))
            }
            None => Some(given),
        }
    }
}

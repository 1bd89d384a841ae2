// A line of a text.
ghost use Rattle.std.specs.Prelude.{◌≡◌, ◌≤◌, not, ◌==◌, length};
ghost use Rattle.std.specs.List.{prefix_len};
ghost use Rattle.source.specs.Lines as lines;
ghost use Rattle.source.specs.Parting.{taken_as, lead_as};
ghost use Rattle.source.specs.Statements.{labelled, lead, Heads, Reads};

use crate::parts::{has_more, take};
use crate::reads::Name;
use crate::statements::{Reading, read_statement};
use operands::{Label, Shape};

// What stands before a line's statement: its label, and whether a word stands for the line.
#[derive(Clone, Copy)]
pub struct Heading {
    pub label: Option<Label>,
    pub has_word: bool,
}

// A whole line.
#[derive(Clone, Copy)]
pub struct Line {
    pub label: Option<Label>,
    pub reading: Reading,
}

// A label, and what stands behind its colon.
#[tactic(auto, unfolding(crate::specs::Statements::labelled))]
fn read_label(line: &[u8]) -> Option<(Label, &[u8])>
    ensures { taken_as result ≡ labelled (lines.parts_of line.now) }
{
    let (label, line) = take(line, Name)?;
    let (_, line) = take(line, Shape::Colon)?;
    Some((label, line))
}

// The label of a line, if it has one, and what stands behind its colon.
fn read_lead(line: &[u8]) -> (Option<Label>, &[u8])
    ensures { lead_as result ≡ lead (lines.parts_of line.now) }
{
    match read_label(line) {
        Some((label, rest)) => (Some(label), rest),
        None => (None, line),
    }
}

// The label of a line, and whether it has a word.
#[tactic(auto, unfolding(crate::specs::Statements::label_of, crate::specs::Statements::has_word))]
pub fn read_heading(line: &[u8]) -> Heading
    ensures { Heads line.now result }
{
    let (label, rest) = read_lead(line);
    let has_word = has_more(rest);
    Heading { label, has_word }
}

// The label of a line, and its statement or 20.
#[tactic(auto, unfolding(crate::specs::Statements::label_of, crate::specs::Statements::statement_of))]
pub fn read_line(line: &[u8]) -> Line
    ensures { Reads line.now result }
{
    let (label, rest) = read_lead(line);
    let reading = read_statement(rest);
    Line { label, reading }
}

// How many bytes a text's first line has.
#[tactic(auto, using(crate::proofs::Places::prefixes))]
fn line_length(text: &[u8]) -> usize
    ensures all { result ≡ prefix_len (λ byte. not (byte == 10)) text.now }
    ensures bound { result ≤ length text.now }
{
    text.iter().take_while(|byte| **byte != b'\n').count()
}

// Where the line that goes through a place of a text ends: at its newline, or where the text ends.
pub fn line_end(text: &[u8], at: usize) -> usize
    ensures { result ≡ lines.line_end text.now at }
{
    match text.split_at_checked(at) {
        Some((_, rest)) => at + line_length(rest),
        None => at,
    }
}

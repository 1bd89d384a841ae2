// The lines of a text, taken one after another.
ghost use Rattle.std.specs.Prelude.{◌≡◌};
ghost use Rattle.std.specs.Iterator.{YieldsFirstRef, item_count};
ghost use Rattle.source.specs.Lines.{lines_of};
ghost use Rattle.source.specs.Parting.{pieces_as};

use source::line_end;

// The first line of a text and what stands behind its newline, if there is one.
pub(crate) fn next_line(text: &[u8]) -> Option<(&[u8], &[u8])>
    ensures { pieces_as lines_of result ≡ lines_of text.now }
{
    if text.len() == 0 {
        return None;
    }
    let (line, behind) = text.split_at(line_end(text, 0));
    match behind.split_first() {
        Some((_newline, rest)) => Some((line, rest)),
        None => Some((line, behind)),
    }
}

// The lines of a text that are left.
#[derive(Drop)]
pub(crate) struct Lines<'a>(pub &'a [u8]);

impl<'a> Iterator for Lines<'a> {
    type Item = &'a [u8];

    ghost next_gives = { YieldsFirstRef (λ text. lines_of text.0.now) };

    ghost remaining = { item_count (λ text. lines_of text.0.now) };

    fn next(&mut self) -> Option<&'a [u8]> {
        let (line, rest) = next_line(self.0)?;
        self.0 = rest;
        Some(line)
    }
}

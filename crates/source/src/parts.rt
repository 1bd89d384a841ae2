// The parts of a line, taken one after another.
ghost use Rattle.std.specs.Prelude.{◌≡◌, ◌≤◌, length};
ghost use Rattle.std.specs.List.{prefix_len};
ghost use Rattle.operands.specs.Operands.{shaped};
ghost use Rattle.operands.specs.declared.operands.Shape.TheVariants.{Comma};
ghost use Rattle.source.specs.Lines.{is_blank, joins, parts_of};
ghost use Rattle.source.specs.Parting.{pieces_as, taken_as};
ghost use Rattle.source.specs.Statements.{first, next, some};

use crate::bytes::{is_blank, is_mark, joins};
use crate::reads::Operand;
use operands::Shape;

// How many blanks a text begins with.
#[tactic(auto, using(crate::proofs::Places::prefixes))]
fn blanks(text: &[u8]) -> usize
    ensures { (result ≡ prefix_len is_blank text.now) × (result ≤ length text.now) }
{
    text.iter().take_while(|byte| is_blank(**byte)).count()
}

// How many bytes it begins with that make one part.
#[tactic(auto, using(crate::proofs::Places::prefixes))]
fn joined(text: &[u8]) -> usize
    ensures { (result ≡ prefix_len joins text.now) × (result ≤ length text.now) }
{
    text.iter().take_while(|byte| joins(**byte)).count()
}

// The first part of a line and what stands behind it, if there is one.
pub(crate) fn next_part(line: &[u8]) -> Option<(&[u8], &[u8])>
    ensures { pieces_as parts_of result ≡ parts_of line.now }
{
    let (_, rest) = line.split_at(blanks(line));
    let (first, others) = rest.split_first()?;
    if is_mark(*first) {
        return Some((&rest[..1], others));
    }
    Some(rest.split_at(joined(rest)))
}

// Whether there is a part.
pub(crate) fn has_more(line: &[u8]) -> bool
    ensures { result ≡ some (parts_of line.now) }
{
    next_part(line).is_some()
}

// The first part of a line, read, and what stands behind it.
#[tactic(auto, unfolding(crate::specs::Statements::first))]
pub(crate) fn take<O: Operand>(line: &[u8], operand: O) -> Option<(O::Value, &[u8])>
    ensures { taken_as result ≡ first (O.says operand) (parts_of line.now) }
{
    let (part, rest) = next_part(line)?;
    Some((operand.read(part)?, rest))
}

// A comma, and the part after it, read.
pub(crate) fn after_comma<O: Operand>(line: &[u8], operand: O) -> Option<(O::Value, &[u8])>
    ensures { taken_as result
        ≡ next (shaped Comma) (parts_of line.now) (λ _ more. first (O.says operand) more) }
{
    let (_, rest) = take(line, Shape::Comma)?;
    take(rest, operand)
}

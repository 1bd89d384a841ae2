// The words of the lines, by the table of their labels.
ghost use Rattle.std.specs.Prelude.{◌≡◌, ◌+◌, ◌<◌, List, [], ℕ, ◌++◌, length};
ghost use Rattle.source.specs.Lines.{lines_of};
ghost use Rattle.placing.specs.Placing.{placed_as, written_as};
ghost use Rattle.assembler.specs.Assembling.{placed_on, words_from};
ghost use Rattle.assembler.specs.Labels.{line_at};
ghost use Rattle.assembler.specs.Table.{Ready};
ghost use Rattle.assembler.specs.Translating.{translated_as};

use crate::answers::{AssemblyError, LineNumber};
use crate::filled::Filled;
use crate::lines::Lines;
use crate::table::Table;
use placing::{Fault, name_in, place};
use source::read_line;
use terms::ByteAddress;

// The word of a line, if it has one, or its fault.
fn place_line(
    line: &[u8],
    number: usize,
    given: ByteAddress,
    table: &Table,
) -> Result<Option<u32>, Fault>
    requires { number < length table.now.lines }
    ensures { (lines : List (List ℕ)) → Ready lines table.now → line_at lines number ≡ line.now
        → placed_as result ≡ placed_on given.0 lines number }
{
    let read = read_line(line);
    let above = table.is_defined_above(read.label, number);
    let address = table.address_of(number, given);
    let target = table.target_of(name_in(read.reading), given);
    place(read.reading, above, address, target)
}

// The number of a line, counted from 1.
fn line_number(line: usize) -> LineNumber
    requires { line < 4096 }
    ensures { result.0 ≡ line + 1 }
{
    LineNumber(line as u32 + 1)
}

// Puts a line's word behind those before, if it has one.
fn put(words: &mut Filled<u32>, word: Option<u32>)
    requires { length words.old < 4096 }
    ensures { words.new ≡ words.old ++ written_as word }
{
    if let Some(word) = word {
        words.push(word);
    }
}

// Puts the words of all lines one behind another, or names the first bad line.
pub(crate) fn translate(
    text: &[u8],
    given: ByteAddress,
    table: &Table,
    words: &mut Filled<u32>,
) -> Result<(), AssemblyError>
    requires { Ready (lines_of text.now) table.now × (words.old ≡ []) }
    ensures { translated_as result words.new
        ≡ words_from given.0 (lines_of text.now) (length (lines_of text.now)) 0 }
{
    for (number, line) in Lines(text).enumerate() {
        match place_line(line, number, given, table) {
            Err(fault) => {
                return Err(AssemblyError::Line {
                    number: line_number(number),
                    fault,
                });
            }
            Ok(word) => put(words, word),
        }
    }
    Ok(())
}

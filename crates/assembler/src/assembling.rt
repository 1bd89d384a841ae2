// From a text to words.
ghost use Rattle.assembler.specs.Assembling.{Assembles};

use crate::answers::AssemblyError;
use crate::filled::Filled;
use crate::table::{Table, no_heads, no_lines};
use crate::translating::translate;
use terms::{ByteAddress, WordIndex};

// Assembles a text of up to 4,096 lines for the byte address of its first word, and answers the
// index of the first word that was not written. The words go to the start of the output, and the
// rest of it keeps what it held; where anything is refused, nothing is written.
pub fn assemble(
    text: &[u8],
    given: ByteAddress,
    output: &mut [u32],
) -> Result<WordIndex, AssemblyError>
    ensures { Assembles text.now given.0 output.old result output.new }
{
    let mut heads = no_heads();
    let mut lines = no_lines();
    let mut table = Table::new(&mut heads, &mut lines);
    table.survey(text)?;
    if given.0 % 4 != 0 {
        return Err(AssemblyError::Misaligned);
    }
    let mut places = [0; 4096];
    let mut words = Filled::new(&mut places);
    translate(text, given, &table, &mut words)?;
    let n = words.len();
    if output.len() < n {
        return Err(AssemblyError::NoRoom);
    }
    output[..n].copy_from_slice(words.as_slice());
    Ok(WordIndex::of(n))
}

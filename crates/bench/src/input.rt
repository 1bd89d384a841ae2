// Standard input, as far as it matters.
ghost use Rattle.std.specs.Prelude.{IfOk};
ghost use Rattle.bench.specs.Texts.{Held};

use std::io;
use std::io::Read;

// Room for one byte more than the longest sheet has, so that a full text is no sheet, whatever
// comes after it.
pub(crate) const ROOM: usize = 577;

// What one read asks for, even where the text has room for less.
pub(crate) const BLOCK: usize = 4096;

// The text that a reader gives, read until it ends or the text is full. The loop counts nothing:
// how far it is, a read has said.
pub(crate) fn read_all<'a, R: Read>(
    input: &mut R,
    room: &'a mut [u8; ROOM + BLOCK],
) -> io::Result<&'a [u8]>
    ensures { IfOk result (λ text. Held (R.remaining input.old) text.now) }
{
    let mut held = 0;
    while held < ROOM {
        let n = input.read(&mut room[held..held + BLOCK])?;
        if n == 0 {
            break;
        }
        held += n;
    }
    Ok(&room[..held.min(ROOM)])
}

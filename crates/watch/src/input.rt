// Files, as far as they matter.
ghost use Rattle.std.specs.Prelude.{◌≤◌, length, IfOk};

use std::io;
use std::io::Read;

// Reads a file into `bytes` until it ends or they are full, and answers how many bytes it has
// given. So one byte more than can be right is room enough to tell that a file is too long,
// whatever comes after it. The loop counts nothing: how far it is, a read has said. `bench` has such a loop too: the two
// programs share no crate for it.
pub(crate) fn fill<R: Read>(file: &mut R, bytes: &mut [u8]) -> io::Result<usize>
    ensures { IfOk result (λ n. n ≤ length bytes.new) }
{
    let mut held = 0;
    while held < bytes.len() {
        let n = file.read(&mut bytes[held..])?;
        if n == 0 {
            break;
        }
        held += n;
    }
    Ok(held)
}

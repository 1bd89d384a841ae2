// Control stores: as a case gives one, and as an answer tells one.
use crate::answers::{Output, Tell, put_all};
use crate::numbers::{BadCase, Numbers};
use microcode::Store;
use std::io;

// The store that `w0 .. w15 e0 .. e63 f0 .. f63` gives: sixteen words, then ROM 1, then ROM 2,
// whose entries are bytes.
pub(crate) fn read(numbers: &mut Numbers<'_>) -> Result<Store, BadCase> {
    Ok(Store {
        words: numbers.take_array()?,
        rom1: numbers.take_array()?,
        rom2: numbers.take_array()?,
    })
}

impl Tell for Store {
    fn tell(self, out: &mut Output) -> io::Result<()> {
        put_all(out, &self.words)?;
        put_all(out, &self.rom1)?;
        put_all(out, &self.rom2)
    }
}

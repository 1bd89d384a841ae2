// The store, and the range of what it holds.
ghost use Rattle.std.specs.Prelude.{◌≡◌};
ghost use Rattle.microcode.specs.Stores.{word_fits, entry_fits, in_range};

// Sixteen control words, and two dispatch ROMs whose entries are a state 0 to 15, or 255 for none:
// the bytes of a store file, of which any may come, so no `Option` (`Stores.in_range` tells 12).
#[derive(Clone, Copy)]
pub struct Store {
    pub words: [u32; 16],
    pub rom1: [u8; 64],
    pub rom2: [u8; 64],
}

fn word_fits(word: u32) -> bool
    ensures { result ≡ word_fits word }
{
    word < 262144
}

fn entry_fits(entry: u8) -> bool
    ensures { result ≡ entry_fits entry }
{
    entry < 16 || entry == 255
}

// Whether every word has 18 bits and every entry is a state or 255: where not, the refusal is 12.
#[tactic(auto, unfolding(crate::specs::Stores::in_range))]
pub fn in_range(store: &Store) -> bool
    ensures { result ≡ in_range store.now }
{
    let words = store.words.iter().all(|word| word_fits(*word));
    let one = store.rom1.iter().all(|entry| entry_fits(*entry));
    let two = store.rom2.iter().all(|entry| entry_fits(*entry));
    words & (one & two)
}

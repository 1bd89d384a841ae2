// The fixed store: the ten words, and the entries of the two dispatch ROMs.
ghost use Rattle.std.specs.Prelude.{◌≡◌};
ghost use Rattle.microcode.specs.Fixed.{fixed_store};

use crate::stores::Store;

const WORDS: [u32; 16] = [
    0x25023, 0x00061, 0x00052, 0x0c003, 0x00808, 0x0a000, 0x00113, 0x0000c, 0x10290, 0x20400,
    0x00000, 0x00000, 0x00000, 0x00000, 0x00000, 0x00000,
];

const DISPATCH_1: [u8; 64] = [
    6, 255, 9, 255, 8, 255, 255, 255, 255, 255, 255, 255, 255, 255, 255, 255, 255, 255, 255, 255,
    255, 255, 255, 255, 255, 255, 255, 255, 255, 255, 255, 255, 255, 255, 255, 2, 255, 255, 255,
    255, 255, 255, 255, 2, 255, 255, 255, 255, 255, 255, 255, 255, 255, 255, 255, 255, 255, 255,
    255, 255, 255, 255, 255, 255,
];

const DISPATCH_2: [u8; 64] = [
    255, 255, 255, 255, 255, 255, 255, 255, 255, 255, 255, 255, 255, 255, 255, 255, 255, 255, 255,
    255, 255, 255, 255, 255, 255, 255, 255, 255, 255, 255, 255, 255, 255, 255, 255, 3, 255, 255,
    255, 255, 255, 255, 255, 5, 255, 255, 255, 255, 255, 255, 255, 255, 255, 255, 255, 255, 255,
    255, 255, 255, 255, 255, 255, 255,
];

// The fixed store, which the sequencer runs and a store of one's own can start from.
pub fn fixed_store() -> Store
    ensures { result ≡ fixed_store }
{
    Store {
        words: WORDS,
        rom1: DISPATCH_1,
        rom2: DISPATCH_2,
    }
}

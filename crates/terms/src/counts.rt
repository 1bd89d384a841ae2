// Cycles, instructions, byte addresses and word indexes: 12 looks alike in all four, so each has a
// type of its own, and one becomes another, a sum or an index only by a function named here. No
// `From`, since an `into()` would turn a count into a number unseen; and no `+`, since a sum of
// counts stops at the largest.
ghost use Rattle.std.specs.Prelude.{◌≡◌, ℕ};
ghost use Rattle.std.proofs.Common.{ap};
ghost use Rattle.terms.specs.Counts.{
  word_at,
  word_index,
  past_words,
  one_more,
  total,
  allowed,
  number_of_cycles,
  number_of_instructions,
};

// How many clock cycles.
#[derive(Clone, Copy, PartialEq, Eq, PartialOrd, Ord)]
pub struct Cycles(pub u32);

// How many instructions.
#[derive(Clone, Copy, PartialEq, Eq, PartialOrd, Ord)]
pub struct Instructions(pub u32);

// Where a byte stands, counted in bytes from 0.
#[derive(Clone, Copy, PartialEq, Eq, PartialOrd, Ord)]
pub struct ByteAddress(pub u32);

// Which word of an image, counted in words from 0.
#[derive(Clone, Copy, PartialEq, Eq, PartialOrd, Ord)]
pub struct WordIndex(pub u32);

// A count of something: cycles, or instructions. A sum stops at 2^32 - 1, which stands for that and
// more.
pub trait Count: Copy {
    ghost counted: { Self → ℕ };

    // So many.
    fn of(number: u32) -> Self
        ensures { counted result ≡ number };

    // How many.
    fn number(self) -> u32
        ensures { result ≡ counted self };

    // No two have one number, so what is said of the number determines the count.
    ghost laws: { (a b : Self) → counted a ≡ counted b → a ≡ b };

    // One more.
    final fn and_one(self) -> Self
        ensures { counted result ≡ one_more (counted self) }
    {
        Self::of(self.number().wrapping_add(1))
    }

    // Those of two runs together.
    final fn plus(self, other: Self) -> Self
        ensures { counted result ≡ total (counted self) (counted other) }
    {
        Self::of(self.number().saturating_add(other.number()))
    }

    // Whether a run takes so many as its budget.
    final fn is_allowed(self) -> bool
        ensures { result ≡ allowed (counted self) }
    {
        self.number() <= 1000000
    }
}

// The two impls are alike and stand apart: the gate refuses one that a macro would write.
impl Count for Cycles {
    ghost counted = { number_of_cycles };

    ghost laws = { λ a b same. ap (λ (n : ℕ). record { 0 = n }) same };

    fn of(number: u32) -> Cycles {
        Cycles(number)
    }

    fn number(self) -> u32 {
        let Cycles(cycles) = self;
        cycles
    }
}

impl Count for Instructions {
    ghost counted = { number_of_instructions };

    ghost laws = { λ a b same. ap (λ (n : ℕ). record { 0 = n }) same };

    fn of(number: u32) -> Instructions {
        Instructions(number)
    }

    fn number(self) -> u32 {
        let Instructions(instructions) = self;
        instructions
    }
}

impl ByteAddress {
    // The byte address that a 32-bit word holds.
    pub fn of(word: u32) -> ByteAddress
        ensures { result.0 ≡ word }
    {
        ByteAddress(word)
    }

    // The first byte address past so many words, modulo 2^32.
    pub fn past(words: usize) -> ByteAddress
        ensures { result.0 ≡ past_words words }
    {
        ByteAddress((words % 1073741824) as u32 * 4)
    }

    // The 32-bit word that a byte address is, as the ALU takes it.
    pub fn as_word(self) -> u32
        ensures { result ≡ self.0 }
    {
        self.0
    }

    // The word in which the byte stands.
    pub fn word_index(self) -> WordIndex
        ensures { result.0 ≡ word_at self.0 }
    {
        WordIndex(self.0 / 4)
    }
}

impl WordIndex {
    // The index of the word at a place of a slice, modulo 2^32.
    pub fn of(place: usize) -> WordIndex
        ensures { result.0 ≡ word_index place }
    {
        WordIndex((place % 4294967296) as u32)
    }

    // The place of the word in a slice of words.
    pub fn place(self) -> usize
        ensures { result ≡ self.0 }
    {
        self.0 as usize
    }
}

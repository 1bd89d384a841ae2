// The image: words at byte addresses 0, 4, 8 and on, for fetch and data alike.
ghost use Rattle.std.specs.Prelude.{◌≡◌, length, slice_index, slice_set};
ghost use Rattle.terms.specs.Refusals.{refusal_of, no_at};
ghost use Rattle.parts.specs.Image.{sized, bad_number, Accesses, Fetches, HoldsWords};

use terms::{AccessKind, ByteAddress, Refusal, WordIndex};

// Whether an image has 1 to 16,384 words.
#[tactic(auto, unfolding(crate::specs::Image::sized))]
pub fn is_sized(image: &[u32]) -> bool
    ensures { result ≡ sized (length image.now) }
{
    let words = image.len();
    0 < words && words <= 16384
}

// Why memory refuses an address.
#[derive(Clone, Copy)]
pub enum BadAddress {
    // 1: not a multiple of 4
    Misaligned,
    // 2: outside the image
    Outside,
}

// The refusal of an access: why the address is refused, with the address and what it was for.
pub fn refusal_at(bad: BadAddress, address: ByteAddress, kind: AccessKind) -> Refusal
    ensures { refusal_of result ≡ no_at (bad_number bad) address.0 kind }
{
    match bad {
        BadAddress::Misaligned => Refusal::Misaligned { address, kind },
        BadAddress::Outside => Refusal::Outside { address, kind },
    }
}

// Which word of the image an access at `address` goes to: 1 where the address is not a multiple of
// 4, then 2 where it lies outside.
#[tactic(auto, unfolding(crate::specs::Image::accessing))]
pub fn access(image: &[u32], address: ByteAddress) -> Result<WordIndex, BadAddress>
    ensures { Accesses (length image.now) address.0 result }
{
    let word = address.word_index();
    let at = word.place();
    let words = image.len();
    let off = address.0 % 4;
    if off != 0 {
        return Err(BadAddress::Misaligned);
    }
    if words <= at {
        return Err(BadAddress::Outside);
    }
    Ok(word)
}

// A word of the image. Past its end it is 0.
pub fn word(image: &[u32], word: WordIndex) -> u32
    ensures { result ≡ slice_index image.now word.0 }
{
    let at = word.place();
    if at < image.len() {
        return image[at];
    }
    0
}

// Puts a word into the image. An index past its end changes nothing.
pub fn store(image: &mut [u32], word: WordIndex, value: u32)
    ensures { image.new ≡ slice_set image.old word.0 value }
{
    let at = word.place();
    if at < image.len() {
        image[at] = value;
    }
}

// The word at an address of the image.
#[tactic(auto, unfolding(crate::specs::Image::reading, crate::specs::Image::accessing))]
pub fn fetch(image: &[u32], address: ByteAddress) -> Result<u32, BadAddress>
    ensures { Fetches image.now address.0 result }
{
    let at = access(image, address)?;
    Ok(word(image, at))
}

// Every word of an image, and of a register file, is a 32-bit number, as its type has it. This is
// where the proofs that need it learn it; nothing is done.
pub fn holds_words(words: &[u32])
    ensures { HoldsWords words.now }
{}

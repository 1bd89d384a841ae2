// The store file: 197 bytes, numbers high byte first.
ghost use Rattle.std.specs.Prelude.{◌≡◌, ◌+◌, ◌≤◌, length};
ghost use Rattle.storefile.specs.File as of;

use microcode::{Store, in_range};
use terms::Refusal;

// The word of the four bytes at a place of a part of a file.
fn word_at(part: &[u8], at: usize) -> u32
    requires { at + 4 ≤ length part.now }
    ensures { result ≡ of.word_in part.now at }
{
    u32::from_be_bytes([part[at], part[at + 1], part[at + 2], part[at + 3]])
}

// The sixteen words of a part of a file, each by its place, as `word_in` has it.
fn words_in(part: &[u8]) -> [u32; 16]
    requires { length part.now ≡ 64 }
    ensures { result ≡ of.words_in part.now }
{
    let mut words = [0u32; 16];
    for (k, word) in words.iter_mut().enumerate() {
        *word = word_at(part, 4 * k);
    }
    words
}

// Whether a file begins with "MCS". Its length is asked for, here and below, and is not in its
// type: with `&[u8; 197]`, made by `try_from`, the check of `read_file` did not come to an end.
fn is_marked(bytes: &[u8]) -> bool
    requires { length bytes.now ≡ 197 }
    ensures { result ≡ of.marked bytes.now }
{
    matches!(bytes, [b'M', b'C', b'S', ..])
}

// Whether its version is 1.
fn is_versioned(bytes: &[u8]) -> bool
    requires { length bytes.now ≡ 197 }
    ensures { result ≡ of.versioned bytes.now }
{
    u16::from_be_bytes([bytes[3], bytes[4]]) == 1
}

fn store_in(bytes: &[u8]) -> Store
    requires { length bytes.now ≡ 197 }
    ensures { result ≡ of.store_in bytes.now }
{
    let words = words_in(&bytes[5..69]);
    let mut rom1 = [0u8; 64];
    rom1.copy_from_slice(&bytes[69..133]);
    let mut rom2 = [0u8; 64];
    rom2.copy_from_slice(&bytes[133..197]);
    Store { words, rom1, rom2 }
}

// Reads a store file: 9, 10, 11 and 12 in this order.
#[tactic(auto, unfolding(crate::specs::File::file_read))]
pub fn read_file(bytes: &[u8]) -> Result<Store, Refusal>
    ensures { of.ReadsFile bytes.now result }
{
    if bytes.len() != 197 {
        return Err(Refusal::FileSize);
    }
    if !is_marked(bytes) {
        return Err(Refusal::FileMark);
    }
    if !is_versioned(bytes) {
        return Err(Refusal::FileVersion);
    }
    let store = store_in(bytes);
    if !in_range(&store) {
        return Err(Refusal::StoreRange);
    }
    Ok(store)
}

const HEADER: [u8; 5] = [b'M', b'C', b'S', 0, 1];

// Writes the words into a part of a file, four bytes each.
fn write_words(words: &[u32; 16], part: &mut [u8])
    requires { length part.old ≡ 64 }
    ensures { part.new ≡ of.word_bytes words.now }
{
    for (k, word) in words.iter().enumerate() {
        let at = 4 * k;
        part[at..at + 4].copy_from_slice(&word.to_be_bytes());
    }
}

// Fills a buffer with a store's file.
#[tactic(auto, using(crate::proofs::Files::written_parts))]
fn fill(store: &Store, buffer: &mut [u8])
    requires { length buffer.old ≡ 197 }
    ensures { buffer.new ≡ of.file_of store.now }
{
    buffer[0..5].copy_from_slice(&HEADER);
    write_words(&store.words, &mut buffer[5..69]);
    buffer[69..133].copy_from_slice(&store.rom1);
    buffer[133..197].copy_from_slice(&store.rom2);
}

// Writes a store file into a buffer: 9 and 12 in this order. A refusal leaves the buffer as it is.
#[tactic(auto, unfolding(crate::specs::File::file_written))]
pub fn write_file(store: &Store, buffer: &mut [u8]) -> Result<(), Refusal>
    ensures { of.WritesFile store.now buffer.old result buffer.new }
{
    if buffer.len() != 197 {
        return Err(Refusal::FileSize);
    }
    if !in_range(store) {
        return Err(Refusal::StoreRange);
    }
    fill(store, buffer);
    Ok(())
}

// The fields of a 32-bit instruction word, by the bits at which document 01 puts them.
ghost use Rattle.std.specs.Prelude.{◌≡◌};
ghost use Rattle.words.specs.Fields as of;

pub fn opcode(word: u32) -> u32
    ensures { result ≡ of.opcode word }
{
    (word >> 26) % 64
}

pub fn rs(word: u32) -> u8
    ensures { result ≡ of.rs word }
{
    ((word >> 21) % 32) as u8
}

pub fn rt(word: u32) -> u8
    ensures { result ≡ of.rt word }
{
    ((word >> 16) % 32) as u8
}

pub fn rd(word: u32) -> u8
    ensures { result ≡ of.rd word }
{
    ((word >> 11) % 32) as u8
}

// The low eleven bits: bits 10 to 6 and the function.
pub fn function(word: u32) -> u32
    ensures { result ≡ of.function word }
{
    word % 2048
}

// The signed 16-bit field, as its bits.
pub fn field(word: u32) -> u16
    ensures { result ≡ of.field word }
{
    (word % 65536) as u16
}

// The 26-bit field of j.
pub fn target(word: u32) -> u32
    ensures { result ≡ of.target word }
{
    word % 67108864
}

// The 32-bit number that equals a signed 16-bit field.
pub fn sign_extend(field: u16) -> u32
    ensures { result ≡ of.sign_extend field }
{
    i32::from(field.cast_signed()).cast_unsigned()
}

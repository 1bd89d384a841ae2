// The ALU: sums and differences modulo 2^32, and, or, and less-than as signed numbers. Its two
// operands come from two places of the datapath, so they stay two parameters.
ghost use Rattle.std.specs.Prelude.{◌≡◌, bit_and, bit_or};
ghost use Rattle.parts.specs.Alu.{sum, difference, less_than};

pub fn add(a: u32, b: u32) -> u32
    ensures { result ≡ sum a b }
{
    a.wrapping_add(b)
}

pub fn sub(a: u32, b: u32) -> u32
    ensures { result ≡ difference a b }
{
    a.wrapping_sub(b)
}

pub fn and(a: u32, b: u32) -> u32
    ensures { result ≡ bit_and a b }
{
    a & b
}

pub fn or(a: u32, b: u32) -> u32
    ensures { result ≡ bit_or a b }
{
    a | b
}

// 1 where a is below b as signed numbers, else 0.
#[tactic(auto, unfolding(crate::specs::Alu::less_than, crate::specs::Alu::signed))]
pub fn slt(a: u32, b: u32) -> u32
    ensures { result ≡ less_than a b }
{
    u32::from(a.cast_signed() < b.cast_signed())
}

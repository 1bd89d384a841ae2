// The signals of a control word, by name, and the choice of one of four by two of its bits.
#![tactic(auto)]

ghost use Rattle.std.specs.Prelude.{◌≡◌, ◌<◌, ◌%◌};
ghost use Rattle.signals.specs.Signals as of;

use terms::mux;

// Whether the bit at a place is set.
fn bit(word: u32, place: u32) -> bool
    requires { place < 32 }
    ensures { result ≡ of.bit word place }
{
    (word >> place) % 2 == 1
}

// The number that two bits write, of which the lower is at a place.
fn two_bits(word: u32, place: u32) -> u32
    requires { place < 32 }
    ensures { result ≡ of.two_bits word place }
{
    (word >> place) % 4
}

pub fn pc_write(word: u32) -> bool
    ensures { result ≡ of.pc_write word }
{
    bit(word, 17)
}

pub fn pc_write_cond(word: u32) -> bool
    ensures { result ≡ of.pc_write_cond word }
{
    bit(word, 16)
}

pub fn ior_d(word: u32) -> bool
    ensures { result ≡ of.ior_d word }
{
    bit(word, 15)
}

pub fn mem_read(word: u32) -> bool
    ensures { result ≡ of.mem_read word }
{
    bit(word, 14)
}

pub fn mem_write(word: u32) -> bool
    ensures { result ≡ of.mem_write word }
{
    bit(word, 13)
}

pub fn ir_write(word: u32) -> bool
    ensures { result ≡ of.ir_write word }
{
    bit(word, 12)
}

pub fn memto_reg(word: u32) -> bool
    ensures { result ≡ of.memto_reg word }
{
    bit(word, 11)
}

pub fn pc_source(word: u32) -> u32
    ensures { result ≡ of.pc_source word }
{
    two_bits(word, 9)
}

pub fn alu_op(word: u32) -> u32
    ensures { result ≡ of.alu_op word }
{
    two_bits(word, 7)
}

pub fn alu_src_b(word: u32) -> u32
    ensures { result ≡ of.alu_src_b word }
{
    two_bits(word, 5)
}

pub fn alu_src_a(word: u32) -> bool
    ensures { result ≡ of.alu_src_a word }
{
    bit(word, 4)
}

pub fn reg_write(word: u32) -> bool
    ensures { result ≡ of.reg_write word }
{
    bit(word, 3)
}

pub fn reg_dst(word: u32) -> bool
    ensures { result ≡ of.reg_dst word }
{
    bit(word, 2)
}

pub fn addr_ctl(word: u32) -> u32
    ensures { result ≡ of.addr_ctl word }
{
    word % 4
}

// One of four, by the low two bits of a number, as two multiplexors after a third.
pub fn one_of(bits: u32, zero: u32, one: u32, two: u32, three: u32) -> u32
    ensures { result ≡ of.one_of (bits % 4) zero one two three }
{
    let low = bit(bits, 0);
    let high = bit(bits, 1);
    mux(high, mux(low, three, two), mux(low, one, zero))
}

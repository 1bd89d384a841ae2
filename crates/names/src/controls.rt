// The signals that a control word asserts, by name.
ghost use Rattle.page.specs.Lent.{Becomes};
ghost use Rattle.names.specs.Controls as of;

use page::Page;

// A signal of one bit, after a blank, where it is set.
#[tactic(auto, unfolding(crate::specs::Controls::one))]
fn one(page: &mut Page<'_>, set: bool, name: &[u8])
    ensures { Becomes page.old page.new (of.one set name.now) }
{
    if set {
        page.put(b' ');
        page.text(name);
    }
}

// A signal of two bits with its value, where that is not 0.
#[tactic(auto, unfolding(crate::specs::Controls::two, crate::specs::Controls::one))]
fn two(page: &mut Page<'_>, value: u32, name: &[u8])
    ensures { Becomes page.old page.new (of.two value name.now) }
{
    if value != 0 {
        one(page, true, name);
        page.put(b'=');
        page.decimal(value);
    }
}

// The signals that a control word asserts, each after a blank: bits 17 to 14, 13 to 9 and 8 to 2.
// AddrCtl is among them where the control is a sequencer's, which the word does not tell.
#[tactic(auto, unfolding(crate::specs::Controls::asserted, crate::specs::Controls::upper_signals, crate::specs::Controls::middle_signals, crate::specs::Controls::lower_signals))]
pub fn asserted(page: &mut Page<'_>, word: u32, sequenced: bool)
    ensures { Becomes page.old page.new (of.asserted word sequenced) }
{
    one(page, signals::pc_write(word), b"PCWrite");
    one(page, signals::pc_write_cond(word), b"PCWriteCond");
    one(page, signals::ior_d(word), b"IorD");
    one(page, signals::mem_read(word), b"MemRead");
    one(page, signals::mem_write(word), b"MemWrite");
    one(page, signals::ir_write(word), b"IRWrite");
    one(page, signals::memto_reg(word), b"MemtoReg");
    two(page, signals::pc_source(word), b"PCSource");
    two(page, signals::alu_op(word), b"ALUOp");
    two(page, signals::alu_src_b(word), b"ALUSrcB");
    one(page, signals::alu_src_a(word), b"ALUSrcA");
    one(page, signals::reg_write(word), b"RegWrite");
    one(page, signals::reg_dst(word), b"RegDst");
    if sequenced {
        two(page, signals::addr_ctl(word), b"AddrCtl");
    }
}

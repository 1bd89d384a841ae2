// The names in a value change dump, each with its width and the letter that stands for it.
ghost use Rattle.page.specs.Lent.{Becomes};
ghost use Rattle.dump.specs.Waves as of;

use page::Page;

// Those of clock and latches.
fn latch_names(page: &mut Page<'_>)
    ensures { Becomes page.old page.new of.latch_names }
{
    page.text(b"$timescale 1 ns $end\n$scope module machine $end\n");
    page.text(b"$var wire 1 c clock $end\n$var reg 4 s state $end\n");
    page.text(b"$var reg 32 p PC $end\n$var reg 32 i IR $end\n");
    page.text(b"$var reg 32 m MDR $end\n$var reg 32 a A $end\n");
    page.text(b"$var reg 32 b B $end\n$var reg 32 o ALUOut $end\n");
    page.text(b"$var reg 160 t instruction $end\n");
}

// Those of the signals, but for AddrCtl.
fn signal_names(page: &mut Page<'_>)
    ensures { Becomes page.old page.new of.signal_names }
{
    page.text(b"$var wire 1 A PCWrite $end\n$var wire 1 B PCWriteCond $end\n");
    page.text(b"$var wire 1 C IorD $end\n$var wire 1 D MemRead $end\n");
    page.text(b"$var wire 1 E MemWrite $end\n$var wire 1 F IRWrite $end\n");
    page.text(b"$var wire 1 G MemtoReg $end\n$var wire 2 H PCSource $end\n");
    page.text(b"$var wire 2 I ALUOp $end\n$var wire 2 J ALUSrcB $end\n");
    page.text(b"$var wire 1 K ALUSrcA $end\n$var wire 1 L RegWrite $end\n");
    page.text(b"$var wire 1 M RegDst $end\n");
}

// All of them.
#[tactic(auto, unfolding(crate::specs::Waves::declarations))]
pub(crate) fn declarations(page: &mut Page<'_>, sequenced: bool)
    ensures { Becomes page.old page.new (of.declarations sequenced) }
{
    latch_names(page);
    signal_names(page);
    address_control(page, sequenced);
    page.text(b"$upscope $end\n$enddefinitions $end\n");
}

#[tactic(auto, unfolding(crate::specs::Waves::address_control))]
fn address_control(page: &mut Page<'_>, sequenced: bool)
    ensures { Becomes page.old page.new (of.address_control sequenced) }
{
    if sequenced {
        page.text(b"$var wire 2 N AddrCtl $end\n");
    }
}

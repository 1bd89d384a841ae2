// A word as the instruction that it is.
ghost use Rattle.page.specs.Lent.{Becomes};
ghost use Rattle.names.specs.Mnemonics as of;

use page::Page;
use words::{Kind, fields, kind_of};

#[tactic(auto, unfolding(crate::specs::Mnemonics::register))]
pub fn register(page: &mut Page<'_>, number: u8)
    ensures { Becomes page.old page.new (of.register number) }
{
    page.put(b'$');
    page.decimal(u32::from(number));
}

#[tactic(auto, unfolding(crate::specs::Mnemonics::after_comma))]
fn after_comma(page: &mut Page<'_>, number: u8)
    ensures { Becomes page.old page.new (of.after_comma number) }
{
    page.put(b',');
    register(page, number);
}

// NAME rd,rs,rt
#[tactic(auto, unfolding(crate::specs::Mnemonics::of_three))]
fn of_three(page: &mut Page<'_>, name: &[u8], word: u32)
    ensures { Becomes page.old page.new (of.of_three name.now word) }
{
    page.text(name);
    register(page, fields::rd(word));
    after_comma(page, fields::rs(word));
    after_comma(page, fields::rt(word));
}

// NAME rt,field(rs)
#[tactic(auto, unfolding(crate::specs::Mnemonics::of_memory))]
fn of_memory(page: &mut Page<'_>, name: &[u8], word: u32)
    ensures { Becomes page.old page.new (of.of_memory name.now word) }
{
    page.text(name);
    register(page, fields::rt(word));
    page.put(b',');
    page.signed(fields::field(word));
    page.put(b'(');
    register(page, fields::rs(word));
    page.put(b')');
}

// rs,rt,field
#[tactic(auto, unfolding(crate::specs::Mnemonics::of_two))]
fn of_two(page: &mut Page<'_>, word: u32)
    ensures { Becomes page.old page.new (of.of_two word) }
{
    register(page, fields::rs(word));
    after_comma(page, fields::rt(word));
    page.put(b',');
    page.signed(fields::field(word));
}

#[tactic(auto, unfolding(crate::specs::Mnemonics::branch_text))]
fn branch(page: &mut Page<'_>, word: u32)
    ensures { Becomes page.old page.new (of.branch_text word) }
{
    page.text(b"beq ");
    of_two(page, word);
}

// j with the byte address that its field names, the upper four bits left out.
#[tactic(auto, unfolding(crate::specs::Mnemonics::jump_text))]
fn jump(page: &mut Page<'_>, word: u32)
    ensures { Becomes page.old page.new (of.jump_text word) }
{
    page.text(b"j ");
    page.decimal(fields::target(word) * 4);
}

// A word of an opcode that is none of the nine instructions', with its fields.
#[tactic(auto, unfolding(crate::specs::Mnemonics::other_opcode))]
fn other_opcode(page: &mut Page<'_>, word: u32)
    ensures { Becomes page.old page.new (of.other_opcode word) }
{
    page.text(b"op ");
    page.decimal(fields::opcode(word));
    page.put(b' ');
    of_two(page, word);
}

#[tactic(auto, unfolding(crate::specs::Mnemonics::other_function))]
fn other_function(page: &mut Page<'_>, word: u32)
    ensures { Becomes page.old page.new (of.other_function word) }
{
    page.text(b"function ");
    page.decimal(fields::function(word));
}

// A word of a kind.
fn of_kind(page: &mut Page<'_>, kind: Kind, word: u32)
    ensures { Becomes page.old page.new (of.of_kind kind word) }
{
    match kind {
        Kind::Add => of_three(page, b"add ", word),
        Kind::Sub => of_three(page, b"sub ", word),
        Kind::And => of_three(page, b"and ", word),
        Kind::Or => of_three(page, b"or ", word),
        Kind::Slt => of_three(page, b"slt ", word),
        Kind::Lw => of_memory(page, b"lw ", word),
        Kind::Sw => of_memory(page, b"sw ", word),
        Kind::Beq => branch(page, word),
        Kind::Jump => jump(page, word),
        Kind::NoOpcode => other_opcode(page, word),
        Kind::NoFunction => other_function(page, word),
    }
}

// The instruction in a word, in at most 20 bytes; a word that is none of the nine by its opcode and
// fields, or by its function.
#[tactic(auto, unfolding(crate::specs::Mnemonics::instruction_text))]
pub fn instruction(page: &mut Page<'_>, word: u32)
    ensures { Becomes page.old page.new (of.instruction_text word) }
{
    of_kind(page, kind_of(word), word);
}

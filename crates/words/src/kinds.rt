// Which of the nine instructions a word is, with no field taken out of it yet.
ghost use Rattle.std.specs.Prelude.{◌≡◌};
ghost use Rattle.words.specs.Kinds.{by_function, accesses, by_opcode, kind_of};
ghost use Rattle.words.specs.declared.kinds.Kind.TheVariants.{NoOpcode};
ghost use Rattle.terms.specs.Tables.{choose};

use crate::fields;

// The nine, and the two ways in which a word is none of them. No `Result` with two errors: each of
// the two takes the machine along a path of its own (`demand2.specs.Paths.path_of`), as the nine
// do.
#[derive(Clone, Copy)]
pub enum Kind {
    Add,
    Sub,
    And,
    Or,
    Slt,
    Lw,
    Sw,
    Beq,
    Jump,
    // refused with 3
    NoOpcode,
    // refused with 4
    NoFunction,
}

#[tactic(auto, unfolding(crate::specs::Kinds::by_function))]
fn by_function(function: u32) -> Kind
    ensures { result ≡ by_function function }
{
    match function {
        32 => Kind::Add,
        34 => Kind::Sub,
        36 => Kind::And,
        37 => Kind::Or,
        42 => Kind::Slt,
        _ => Kind::NoFunction,
    }
}

fn by_access(opcode: u32) -> Kind
    ensures { result ≡ choose accesses NoOpcode opcode }
{
    match opcode {
        35 => Kind::Lw,
        43 => Kind::Sw,
        _ => Kind::NoOpcode,
    }
}

#[tactic(auto, unfolding(crate::specs::Kinds::by_opcode))]
fn by_opcode(opcode: u32, function: u32) -> Kind
    ensures { result ≡ by_opcode opcode function }
{
    match opcode {
        0 => by_function(function),
        2 => Kind::Jump,
        4 => Kind::Beq,
        _ => by_access(opcode),
    }
}

// The kind of instruction that a word is.
pub fn kind_of(word: u32) -> Kind
    ensures { result ≡ kind_of word }
{
    by_opcode(fields::opcode(word), fields::function(word))
}

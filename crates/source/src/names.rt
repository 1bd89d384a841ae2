// The names of the statements.
ghost use Rattle.std.specs.Prelude.{◌≡◌};
ghost use Rattle.source.specs.Statements as of;

// The five of R-format.
#[derive(Clone, Copy)]
pub(crate) enum Operation {
    Add,
    Sub,
    And,
    Or,
    Slt,
}

// The two that access memory.
#[derive(Clone, Copy)]
pub(crate) enum Access {
    Lw,
    Sw,
}

// A name, by the operands that it takes.
#[derive(Clone, Copy)]
pub(crate) enum Mnemonic {
    Three(Operation),
    Memory(Access),
    Beq,
    Jump,
    // .word
    Directive,
}

// The name that a part is, if it is one.
#[tactic(auto, unfolding(crate::specs::Statements::mnemonic), using(crate::proofs::Unnamed::all))]
pub(crate) fn mnemonic_of(part: &[u8]) -> Option<Mnemonic>
    ensures { result ≡ of.mnemonic part.now }
{
    match part {
        b"add" => Some(Mnemonic::Three(Operation::Add)),
        b"sub" => Some(Mnemonic::Three(Operation::Sub)),
        b"and" => Some(Mnemonic::Three(Operation::And)),
        b"or" => Some(Mnemonic::Three(Operation::Or)),
        b"slt" => Some(Mnemonic::Three(Operation::Slt)),
        b"lw" => Some(Mnemonic::Memory(Access::Lw)),
        b"sw" => Some(Mnemonic::Memory(Access::Sw)),
        b"beq" => Some(Mnemonic::Beq),
        b"j" => Some(Mnemonic::Jump),
        b".word" => Some(Mnemonic::Directive),
        _ => None,
    }
}

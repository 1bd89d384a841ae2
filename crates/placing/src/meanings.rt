// What a statement means where it stands.
ghost use Rattle.std.specs.Prelude.{◌≡◌, ◌/◌, ◌%◌, ◌^◌};
ghost use Rattle.terms.specs.Answers.{fold};
ghost use Rattle.words.specs.Encoding.{encoding};
ghost use Rattle.placing.specs.Placing as of;

use source::Statement;
use terms::ByteAddress;
use words::{Instruction, encode, next_address};

// An instruction, or a directive's word.
#[derive(Clone, Copy)]
pub(crate) enum Meant {
    Is(Instruction),
    Word(u32),
}

// The distance in words from the word after `address`, in 16 bits. Address and target, and
// below a statement with them, stay parameters: `place` is public and takes them so.
fn distance(address: ByteAddress, target: ByteAddress) -> u16
    ensures { result ≡ of.distance address.0 target.0 }
{
    let next = next_address(address);
    let bytes = target.0.wrapping_sub(next.0);
    (bytes / 4 % 65536) as u16
}

// The 26 bits of a target.
fn jump_field(target: ByteAddress) -> u32
    ensures { result ≡ target.0 / 4 % 2 ^ 26 }
{
    target.0 / 4 % 67108864
}

// Whether the upper four bits of a target are those of the word after `address`.
fn in_reach(address: ByteAddress, target: ByteAddress) -> bool
    ensures { result ≡ of.in_reach address.0 target.0 }
{
    let next = next_address(address);
    target.0 / 268435456 == next.0 / 268435456
}

// Whether it is a j whose target is out of reach.
pub(crate) fn out_of_reach(statement: Statement, address: ByteAddress, target: ByteAddress) -> bool
    ensures { result ≡ of.out_of_reach address.0 target.0 statement }
{
    matches!(statement, Statement::Jump { .. }) && !in_reach(address, target)
}

// What a statement means at `address`, where its label names `target`.
fn meaning(statement: Statement, address: ByteAddress, target: ByteAddress) -> Meant
    ensures { result ≡ of.meaning address.0 target.0 statement }
{
    match statement {
        Statement::Add { rd, rs, rt } => Meant::Is(Instruction::Add { rd, rs, rt }),
        Statement::Sub { rd, rs, rt } => Meant::Is(Instruction::Sub { rd, rs, rt }),
        Statement::And { rd, rs, rt } => Meant::Is(Instruction::And { rd, rs, rt }),
        Statement::Or { rd, rs, rt } => Meant::Is(Instruction::Or { rd, rs, rt }),
        Statement::Slt { rd, rs, rt } => Meant::Is(Instruction::Slt { rd, rs, rt }),
        Statement::Lw { rt, rs, field } => Meant::Is(Instruction::Lw { rt, rs, field }),
        Statement::Sw { rt, rs, field } => Meant::Is(Instruction::Sw { rt, rs, field }),
        Statement::Beq { rs, rt, label: _ } => Meant::Is(Instruction::Beq {
            rs,
            rt,
            field: distance(address, target),
        }),
        Statement::Jump { .. } => Meant::Is(Instruction::Jump {
            field: jump_field(target),
        }),
        Statement::Word { word } => Meant::Word(word),
    }
}

// The word of an instruction; 0 where it has none.
fn word_of(instruction: Instruction) -> u32
    ensures { result ≡ fold (λ w. w) (λ _. 0) (encoding instruction) }
{
    encode(instruction).unwrap_or(0)
}

// The word that stands for a statement at `address`, where its label names `target`.
pub(crate) fn word(statement: Statement, address: ByteAddress, target: ByteAddress) -> u32
    ensures { result ≡ of.word (of.meaning address.0 target.0 statement) }
{
    match meaning(statement, address, target) {
        Meant::Is(instruction) => word_of(instruction),
        Meant::Word(word) => word,
    }
}

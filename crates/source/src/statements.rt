// What stands on a line after its label.
ghost use Rattle.std.specs.Prelude.{◌≡◌};
ghost use Rattle.operands.specs.Operands.{read_as};
ghost use Rattle.source.specs.Lines.{parts_of};
ghost use Rattle.source.specs.Parting.{taken_as};
ghost use Rattle.source.specs.Statements as of;

use crate::names::{Access, Mnemonic, Operation, mnemonic_of};
use crate::parts::{after_comma, has_more, next_part, take};
use crate::reads::{Name, Offset, Register, Word};
use operands::{Label, Shape};

// A statement is a name with its own operands, as an instruction is a kind with its own fields; beq
// and j have a label. The seven others are not held as an `Instruction`: this crate knows texts,
// and not what words mean.
#[derive(Clone, Copy)]
pub enum Statement {
    Add { rd: u8, rs: u8, rt: u8 },
    Sub { rd: u8, rs: u8, rt: u8 },
    And { rd: u8, rs: u8, rt: u8 },
    Or { rd: u8, rs: u8, rt: u8 },
    Slt { rd: u8, rs: u8, rt: u8 },
    Lw { rt: u8, rs: u8, field: u16 },
    Sw { rt: u8, rs: u8, field: u16 },
    Beq { rs: u8, rt: u8, label: Label },
    Jump { label: Label },
    // .word
    Word { word: u32 },
}

// 20: line not readable.
#[derive(Clone, Copy)]
pub struct Unreadable;

// A statement or none, or 20.
pub type Reading = Result<Option<Statement>, Unreadable>;

fn operation(name: Operation, rd: u8, rs: u8, rt: u8) -> Statement
    ensures { result ≡ of.operation name rd rs rt }
{
    match name {
        Operation::Add => Statement::Add { rd, rs, rt },
        Operation::Sub => Statement::Sub { rd, rs, rt },
        Operation::And => Statement::And { rd, rs, rt },
        Operation::Or => Statement::Or { rd, rs, rt },
        Operation::Slt => Statement::Slt { rd, rs, rt },
    }
}

fn access(name: Access, rt: u8, rs: u8, field: u16) -> Statement
    ensures { result ≡ of.access name rt rs field }
{
    match name {
        Access::Lw => Statement::Lw { rt, rs, field },
        Access::Sw => Statement::Sw { rt, rs, field },
    }
}

// What was read, at the end of the line.
fn done<T: Copy>(line: &[u8], value: T) -> Option<T>
    ensures { read_as result ≡ of.done (parts_of line.now) value }
{
    if has_more(line) { None } else { Some(value) }
}

// $d, $s, $t
#[tactic(auto, unfolding(crate::specs::Statements::three))]
fn three(line: &[u8], name: Operation) -> Option<Statement>
    ensures { read_as result ≡ of.three (of.operation name) (parts_of line.now) }
{
    let (rd, line) = take(line, Register)?;
    let (rs, line) = after_comma(line, Register)?;
    let (rt, line) = after_comma(line, Register)?;
    done(line, operation(name, rd, rs, rt))
}

// ($s)
#[tactic(auto, unfolding(crate::specs::Statements::in_parentheses))]
fn in_parentheses(line: &[u8]) -> Option<(u8, &[u8])>
    ensures { taken_as result ≡ of.in_parentheses (parts_of line.now) }
{
    let (_, line) = take(line, Shape::Open)?;
    let (rs, line) = take(line, Register)?;
    let (_, line) = take(line, Shape::Close)?;
    Some((rs, line))
}

// $t, offset($s)
#[tactic(auto, unfolding(crate::specs::Statements::memory))]
fn memory(line: &[u8], name: Access) -> Option<Statement>
    ensures { read_as result ≡ of.memory (of.access name) (parts_of line.now) }
{
    let (rt, line) = take(line, Register)?;
    let (field, line) = after_comma(line, Offset)?;
    let (rs, line) = in_parentheses(line)?;
    done(line, access(name, rt, rs, field))
}

// A label, and the end of the line.
#[tactic(auto, unfolding(crate::specs::Statements::target))]
fn target(line: &[u8]) -> Option<Label>
    ensures { read_as result ≡ of.target (parts_of line.now) }
{
    let (label, line) = take(line, Name)?;
    done(line, label)
}

// $s, $t, label
#[tactic(auto, unfolding(crate::specs::Statements::branch))]
fn branch(line: &[u8]) -> Option<Statement>
    ensures { read_as result ≡ of.branch (parts_of line.now) }
{
    let (rs, line) = take(line, Register)?;
    let (rt, line) = after_comma(line, Register)?;
    let (_, line) = take(line, Shape::Comma)?;
    let label = target(line)?;
    Some(Statement::Beq { rs, rt, label })
}

// label
fn jump(line: &[u8]) -> Option<Statement>
    ensures { read_as result ≡ of.operands Mnemonic.Jump (parts_of line.now) }
{
    let label = target(line)?;
    Some(Statement::Jump { label })
}

// eight hexadecimal digits
fn directive(line: &[u8]) -> Option<Statement>
    ensures { read_as result ≡ of.operands Mnemonic.Directive (parts_of line.now) }
{
    let (word, line) = take(line, Word)?;
    done(line, Statement::Word { word })
}

// The operands that a name takes.
fn with_name(line: &[u8], name: Mnemonic) -> Option<Statement>
    ensures { read_as result ≡ of.operands name (parts_of line.now) }
{
    match name {
        Mnemonic::Three(name) => three(line, name),
        Mnemonic::Memory(name) => memory(line, name),
        Mnemonic::Beq => branch(line),
        Mnemonic::Jump => jump(line),
        Mnemonic::Directive => directive(line),
    }
}

// Nothing, or a name and its operands.
#[tactic(auto, unfolding(crate::specs::Statements::statement))]
pub(crate) fn read_statement(line: &[u8]) -> Reading
    ensures { of.reading_as result ≡ of.statement (parts_of line.now) }
{
    let Some((part, line)) = next_part(line) else {
        return Ok(None);
    };
    let name = mnemonic_of(part).ok_or(Unreadable)?;
    let statement = with_name(line, name).ok_or(Unreadable)?;
    Ok(Some(statement))
}

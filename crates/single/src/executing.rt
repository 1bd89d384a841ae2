// What an instruction does, decided from registers, PC and memory as they are.
ghost use Rattle.std.specs.Prelude.{List, ◌≡◌, ℕ};
ghost use Rattle.terms.specs.Answers.{answered};
ghost use Rattle.terms.specs.Refusals.{refusal_of, no_at};
ghost use Rattle.parts.specs.Image.{bad_number};
ghost use Rattle.single.specs.Visible.{Visible, visible};
ghost use Rattle.single.specs.Effects.{Decides};
ghost use Rattle.single.specs.Instruction.{address_of, branching, writing, transferring};
ghost use Rattle.single.specs.Instruction.{load_word, store_word, performing, instruction};

use crate::effects::Effect;
use parts::image::refusal_at;
use parts::registers::read;
use parts::{alu, image};
use terms::{AccessKind, ByteAddress, Refusal};
use words::{Kind, branch_target, fields, jump_target, kind_of, next_address};

// A register takes a value.
fn writes(register: u8, value: u32, pc: ByteAddress) -> Result<Effect, Refusal>
    ensures { (cells image : List ℕ) → Decides (λ s. answered (writing s register value))
        (visible cells pc.0 image) result }
{
    let pc = next_address(pc);
    Ok(Effect::Writes {
        register,
        value,
        pc,
    })
}

// Control goes to `pc`.
fn transfers(pc: ByteAddress) -> Result<Effect, Refusal>
    ensures { (at : Visible) → Decides (λ s. answered (transferring s pc.0)) at result }
{
    Ok(Effect::Transfers { pc })
}

// The address of a load or a store, from the value of its base register.
fn data_address(base: u32, field: u16) -> ByteAddress
    ensures { result.0 ≡ address_of base field }
{
    ByteAddress::of(alu::add(base, fields::sign_extend(field)))
}

// lw: register rt takes the word at the address. PC and image stay two parameters, here and below,
// and register file and PC two: the loop holds file and PC apart, so that a step copies no
// register.
fn load_word(
    rt: u8,
    address: ByteAddress,
    pc: ByteAddress,
    image: &[u32],
) -> Result<Effect, Refusal>
    ensures { (cells : List ℕ) → Decides (λ s. load_word s rt address.0)
        (visible cells pc.0 image.now) result }
{
    let refused = |bad| refusal_at(bad, address, AccessKind::Load);
    let value = image::fetch(image, address).map_err(refused)?;
    writes(rt, value, pc)
}

// sw: the word at the address takes a value.
fn store_word(
    address: ByteAddress,
    value: u32,
    pc: ByteAddress,
    image: &[u32],
) -> Result<Effect, Refusal>
    ensures { (cells : List ℕ) → Decides (λ s. store_word s address.0 value)
        (visible cells pc.0 image.now) result }
{
    let refused = |bad| refusal_at(bad, address, AccessKind::Store);
    let word = image::access(image, address).map_err(refused)?;
    let pc = next_address(pc);
    Ok(Effect::Stores { word, value, pc })
}

// beq: where control goes.
fn branch(a: u32, b: u32, pc: ByteAddress, field: u16) -> ByteAddress
    ensures { result.0 ≡ branching a b pc.0 field }
{
    if a == b {
        return branch_target(pc, field);
    }
    next_address(pc)
}

// What the instruction in a word does, or 3 or 4. It acts on the word's own fields: an instruction
// that is made and taken apart again costs more than doing it.
#[tactic(auto, unfolding(crate::specs::Instruction::executing))]
fn perform(word: u32, cells: &[u32; 32], pc: ByteAddress, image: &[u32]) -> Result<Effect, Refusal>
    ensures { Decides (performing word)
        (visible cells.now pc.0 image.now) result }
{
    let rd = fields::rd(word);
    let rt = fields::rt(word);
    let field = fields::field(word);
    let a = read(cells, fields::rs(word));
    let b = read(cells, rt);
    match kind_of(word) {
        Kind::Add => writes(rd, alu::add(a, b), pc),
        Kind::Sub => writes(rd, alu::sub(a, b), pc),
        Kind::And => writes(rd, alu::and(a, b), pc),
        Kind::Or => writes(rd, alu::or(a, b), pc),
        Kind::Slt => writes(rd, alu::slt(a, b), pc),
        Kind::Lw => load_word(rt, data_address(a, field), pc, image),
        Kind::Sw => store_word(data_address(a, field), b, pc, image),
        Kind::Beq => transfers(branch(a, b, pc, field)),
        Kind::Jump => transfers(jump_target(pc, fields::target(word))),
        Kind::NoOpcode => Err(Refusal::NoEntry),
        Kind::NoFunction => Err(Refusal::UnknownFunction),
    }
}

// What the instruction at PC does, or why it is refused.
#[tactic(auto, unfolding(crate::specs::Instruction::instruction))]
pub(crate) fn decide(cells: &[u32; 32], pc: ByteAddress, image: &[u32]) -> Result<Effect, Refusal>
    ensures { Decides instruction
        (visible cells.now pc.0 image.now) result }
{
    let word = image::fetch(image, pc).map_err(|bad| refusal_at(bad, pc, AccessKind::Fetch))?;
    perform(word, cells, pc, image)
}

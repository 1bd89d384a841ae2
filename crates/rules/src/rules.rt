// The six rules, held against one state of a walk.
ghost use Rattle.std.specs.Prelude.{◌≡◌};
ghost use Rattle.rules.specs.Rules as of;

use signals::{addr_ctl, alu_op, ior_d, ir_write, mem_read, mem_write, pc_source, reg_write};

// How a walk leaves a state.
#[derive(Clone, Copy)]
pub enum Exit {
    // for another
    Onward(u8),
    // back to fetch
    Back,
    // by a missing entry
    Missing,
    // by a step that rule 6 bars
    Barred,
}

fn is_missing(exit: Exit) -> bool
    ensures { result ≡ of.is_missing exit }
{
    matches!(exit, Exit::Missing)
}

fn is_barred(exit: Exit) -> bool
    ensures { result ≡ of.is_barred exit }
{
    matches!(exit, Exit::Barred)
}

// Whether a state writes a register or memory.
pub fn writes(word: u32) -> bool
    ensures { result ≡ of.writes word }
{
    reg_write(word) || mem_write(word)
}

#[tactic(auto, unfolding(crate::specs::Rules::rule1))]
pub fn rule1(state: u8, word: u32) -> bool
    ensures { result ≡ of.rule1 state word }
{
    let fetches = mem_read(word) && ir_write(word);
    let counts_on = addr_ctl(word) == 3;
    let at_pc = !ior_d(word) && counts_on;
    state != 0 || (fetches && at_pc)
}

#[tactic(auto, unfolding(crate::specs::Rules::rule2))]
pub fn rule2(state: u8, word: u32) -> bool
    ensures { result ≡ of.rule2 state word }
{
    state == 0 || !ir_write(word)
}

#[tactic(auto, unfolding(crate::specs::Rules::rule3))]
pub fn rule3(word: u32) -> bool
    ensures { result ≡ of.rule3 word }
{
    !(mem_read(word) && mem_write(word))
}

#[tactic(auto, unfolding(crate::specs::Rules::rule4))]
pub fn rule4(word: u32) -> bool
    ensures { result ≡ of.rule4 word }
{
    alu_op(word) != 3 && pc_source(word) != 3
}

#[tactic(auto, unfolding(crate::specs::Rules::rule5))]
pub fn rule5(written: bool, word: u32, exit: Exit) -> bool
    ensures { result ≡ of.rule5 written word exit }
{
    let by_function = alu_op(word) == 2;
    let uses_memory = mem_read(word) || mem_write(word);
    !(written && (uses_memory || by_function || is_missing(exit)))
}

#[tactic(auto, unfolding(crate::specs::Rules::rule6))]
pub fn rule6(exit: Exit) -> bool
    ensures { result ≡ of.rule6 exit }
{
    !is_barred(exit)
}

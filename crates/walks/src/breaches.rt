// The lowest rule that a state of a walk breaks.
ghost use Rattle.std.specs.Prelude.{◌≡◌, ℕ};
ghost use Rattle.terms.specs.Answers.{pick};
ghost use Rattle.rules.specs.Rules as of;
ghost use Rattle.walks.specs.Checking.{admitted, breach, lowest};
ghost use Rattle.walks.specs.Following.{breach_as};

use rules::{Exit, rule1, rule2, rule3, rule4, rule5, rule6};

// Where a walk breaks a rule.
#[derive(Clone, Copy)]
pub(crate) struct Breach {
    pub state: u8,
    pub rule: u8,
}

// The breach of a rule that is not kept.
fn unless(kept: bool, state: u8, rule: u8) -> Option<Breach>
    ensures { (opcode : ℕ) → breach_as opcode result
        ≡ pick kept admitted (breach opcode state rule) }
{
    if kept {
        None
    } else {
        Some(Breach { state, rule })
    }
}

// The lowest rule that a state of a walk breaks, if it does not keep all six. `written` says
// whether an earlier state writes.
pub(crate) fn broken(state: u8, word: u32, written: bool, exit: Exit) -> Option<Breach>
    ensures { (opcode : ℕ) → breach_as opcode result
        ≡ lowest opcode state (of.rules state word written exit) }
{
    let one = unless(rule1(state, word), state, 1);
    let two = unless(rule2(state, word), state, 2);
    let three = unless(rule3(word), state, 3);
    let four = unless(rule4(word), state, 4);
    let five = unless(rule5(written, word, exit), state, 5);
    let six = unless(rule6(exit), state, 6);
    one.or(two).or(three).or(four).or(five).or(six)
}

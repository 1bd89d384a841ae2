// What a control gives in a state for an opcode.
ghost use Rattle.std.specs.Prelude.{◌≡◌};
ghost use Rattle.control.specs.Units.{unit_gives};

use crate::units::Unit;
use datapath::Control;
use microcode::fixed_store;
use tables::{entry_at, from_entry, pla, rom_table, tabled};

// What a unit gives in a state for an opcode.
#[tactic(auto, unfolding(crate::specs::Units::unit_gives))]
pub fn gives(unit: Unit, state: u32, opcode: u32) -> Control
    ensures { result ≡ unit_gives unit state opcode }
{
    match unit {
        Unit::StateTable => tabled(&fixed_store(), state, opcode),
        Unit::Rom => from_entry(state, entry_at(&rom_table(), state, opcode)),
        Unit::Pla => from_entry(state, pla(state, opcode)),
        Unit::Sequencer => microcode::gives(&fixed_store(), state, opcode),
    }
}

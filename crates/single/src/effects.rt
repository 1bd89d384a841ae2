// What one instruction does to registers, PC and memory.
ghost use Rattle.std.specs.Prelude.{◌≡◌};
ghost use Rattle.single.specs.Visible.{visible};
ghost use Rattle.single.specs.Effects.{effect_of};

use parts::{image, registers};
use terms::{ByteAddress, WordIndex};

// A register takes a value, a word of the image does, or neither; PC goes on to `pc`.
#[derive(Clone, Copy)]
pub(crate) enum Effect {
    Writes {
        register: u8,
        value: u32,
        pc: ByteAddress,
    },
    Stores {
        word: WordIndex,
        value: u32,
        pc: ByteAddress,
    },
    Transfers {
        pc: ByteAddress,
    },
}

// Carries an effect out, and answers the next PC.
pub(crate) fn carry(effect: Effect, cells: &mut [u32; 32], image: &mut [u32]) -> ByteAddress
    ensures { visible cells.new result.0 image.new
        ≡ effect_of effect cells.old image.old }
{
    match effect {
        Effect::Writes {
            register,
            value,
            pc,
        } => {
            registers::write(cells, register, value);
            pc
        }
        Effect::Stores { word, value, pc } => {
            image::store(image, word, value);
            pc
        }
        Effect::Transfers { pc } => pc,
    }
}

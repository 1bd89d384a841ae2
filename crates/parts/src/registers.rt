// The register file: thirty-two cells. Register 0 reads 0 and a write to it is dropped; its cell is
// neither read nor written.
ghost use Rattle.std.specs.Prelude.{◌≡◌};
ghost use Rattle.parts.specs.Registers.{read_of, written};

// What a register reads. A register's number is taken in five bits.
#[tactic(auto, unfolding(crate::specs::Registers::read_of))]
pub fn read(registers: &[u32; 32], register: u8) -> u32
    ensures { result ≡ read_of registers.now register }
{
    let at = (register % 32) as usize;
    if at == 0 {
        return 0;
    }
    registers[at]
}

// Writes a register.
#[tactic(auto, unfolding(crate::specs::Registers::written))]
pub fn write(registers: &mut [u32; 32], register: u8, value: u32)
    ensures { registers.new ≡ written registers.old register value }
{
    let at = (register % 32) as usize;
    if at != 0 {
        registers[at] = value;
    }
}

// The machine: its register file and its latches.
ghost use Rattle.std.specs.Prelude.{◌≡◌};
ghost use Rattle.datapath.specs.Machines.{at_reset};

use terms::ByteAddress;

// PC, IR, MDR, A, B, ALUOut and the state number.
#[derive(Clone, Copy)]
pub struct Latches {
    pub pc: ByteAddress,
    pub ir: u32,
    pub mdr: u32,
    pub a: u32,
    pub b: u32,
    pub aluout: u32,
    pub state: u32,
}

// The register file and the latches.
#[derive(Clone, Copy)]
pub struct Machine {
    pub registers: [u32; 32],
    pub latches: Latches,
}

// A machine at reset: about to fetch at address 0, with zero in every register and latch.
pub fn reset() -> Machine
    ensures { result ≡ at_reset }
{
    let registers = [0u32; 32];
    let latches = Latches {
        pc: ByteAddress(0),
        ir: 0,
        mdr: 0,
        a: 0,
        b: 0,
        aluout: 0,
        state: 0,
    };
    Machine { registers, latches }
}

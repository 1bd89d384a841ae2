// Multicycle machines: as a case gives one, and as an answer tells how a run left it.
use crate::answers::{Output, Tell, put, put_all};
use crate::numbers::{BadCase, Numbers};
use control::MachineRun;
use datapath::{Latches, Machine};
use std::io;
use terms::ByteAddress;

// The machine that `pc ir mdr a b aluout state r0 .. r31` gives.
pub(crate) fn read(numbers: &mut Numbers<'_>) -> Result<Machine, BadCase> {
    let [pc, ir, mdr, a, b, aluout, state]: [u32; 7] = numbers.take_array()?;
    let latches = Latches {
        pc: ByteAddress(pc),
        ir,
        mdr,
        a,
        b,
        aluout,
        state,
    };
    let registers = numbers.take_array()?;
    Ok(Machine { registers, latches })
}

// A run's refusal, its counts of cycles and instructions, and the machine as it stands.
impl Tell for MachineRun {
    fn tell(self, out: &mut Output) -> io::Result<()> {
        let Machine { registers, latches } = self.machine;
        self.outcome.tell(out)?;
        put_all(out, &[self.cycles.0, self.instructions.0])?;
        put(out, latches.pc.0)?;
        put_all(out, &[latches.ir, latches.mdr, latches.a, latches.b])?;
        put_all(out, &[latches.aluout, latches.state])?;
        put_all(out, &registers)
    }
}

// `single B pc r0 .. r31 IMAGE`: the single-cycle machine's run, with a budget of B instructions.
use crate::answers::{Failure, Output, Tell, put_all};
use crate::image;
use crate::numbers::Numbers;
use single::{SingleCycle, SingleRun, run};
use std::io;
use terms::{ByteAddress, Instructions};

// A run's refusal, its count of instructions, and the machine as it stands.
impl Tell for SingleRun {
    fn tell(self, out: &mut Output) -> io::Result<()> {
        let SingleCycle { registers, pc } = self.machine;
        self.outcome.tell(out)?;
        put_all(out, &[self.instructions.0, pc.0])?;
        put_all(out, &registers)
    }
}

pub(crate) fn answer(mut numbers: Numbers<'_>, out: &mut Output) -> Result<(), Failure> {
    let budget = Instructions(numbers.take()?);
    let pc = ByteAddress(numbers.take()?);
    let registers = numbers.take_array()?;
    let machine = SingleCycle { registers, pc };
    image::answer(numbers, out, |image| run(machine, image, budget))
}

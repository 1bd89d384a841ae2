// A multiplexor.
ghost use Rattle.std.specs.Prelude.{◌≡◌};
ghost use Rattle.terms.specs.Answers.{pick};

// One of two numbers: `on` where the select line is set.
pub fn mux(select: bool, on: u32, off: u32) -> u32
    ensures { result ≡ pick select on off }
{
    if select { on } else { off }
}

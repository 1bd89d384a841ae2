// The PLA unit: 17 product terms, each with what it reads and what it asserts.
ghost use Rattle.std.specs.Prelude.{◌≡◌};
ghost use Rattle.tables.specs.Pla as of;

// A product term: the state that it reads, the opcode if it reads one, and what it asserts.
#[derive(Clone, Copy)]
struct Term(u32, Option<u32>, u32);

// The ten that read the state alone, and the seven that read the opcode too. Of what they assert,
// sixteen control bits stand in bits 19 to 4, the next state in bits 3 to 0.
static TERMS: [Term; 17] = [
    Term(0, None, 0x94081),
    Term(1, None, 0x00180),
    Term(2, None, 0x00140),
    Term(3, None, 0x30004),
    Term(4, None, 0x02020),
    Term(5, None, 0x28000),
    Term(6, None, 0x00447),
    Term(7, None, 0x00030),
    Term(8, None, 0x40a40),
    Term(9, None, 0x81000),
    Term(1, Some(0), 0x00006),
    Term(1, Some(2), 0x00009),
    Term(1, Some(4), 0x00008),
    Term(1, Some(35), 0x00002),
    Term(1, Some(43), 0x00002),
    Term(2, Some(35), 0x00003),
    Term(2, Some(43), 0x00005),
];

impl Term {
    // What it asserts where it fires, else 0. Each case returns at once: with one `match` for the
    // opcode a step under the PLA took 1.8 times as long.
    fn asserted(self, state: u32, opcode: u32) -> u32
        ensures { result ≡ of.term self.0 self.1 self.2 state opcode }
    {
        let Term(reads, code, asserts) = self;
        if reads != state {
            return 0;
        }
        let Some(code) = code else {
            return asserts;
        };
        if code != opcode {
            return 0;
        }
        asserts
    }
}

// The logical sum of all terms.
pub fn pla(state: u32, opcode: u32) -> u32
    ensures { result ≡ of.plane 17 state opcode }
{
    let mut bits = 0;
    for term in &TERMS {
        bits |= term.asserted(state, opcode);
    }
    bits
}

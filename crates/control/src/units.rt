// The four fixed control units.

#[derive(Clone, Copy, PartialEq, Eq)]
pub enum Unit {
    StateTable,
    Rom,
    Pla,
    Sequencer,
}

// What is wrong, in one line on standard error with its number: a refusal's, or one of the
// program's own from 101 on.
use meanings::refusal_text;
use page::Page;
use std::rt::Stderr;
use terms::Refusal;

// What is wrong with what was asked for. A name or a text is that of the argument that it is wrong
// with.
#[derive(Clone, Copy)]
pub(crate) enum Fault<'a> {
    Usage,
    NoUnit(&'a [u8]),
    NoFile(&'a [u8]),
    NoReading(&'a [u8]),
    NoNumber(&'a [u8]),
    BadSheet,
    Refused(Refusal),
}

impl From<Refusal> for Fault<'_> {
    fn from(refusal: Refusal) -> Self {
        Fault::Refused(refusal)
    }
}

// A fault of the program's own: its number, and what it is.
fn error(page: &mut Page<'_>, number: u32, start: &[u8], name: &[u8], end: &[u8]) {
    page.text(b"error ");
    page.decimal(number);
    page.text(b": ");
    page.text(start);
    page.text(name);
    page.text(end);
}

impl Fault<'_> {
    fn tell(self, page: &mut Page<'_>) {
        match self {
            Fault::Usage => error(
                page,
                101,
                b"usage: watch [--vcd] UNIT CYCLES < SHEET, ",
                b"UNIT being table, rom, pla, sequencer ",
                b"or the path of a store file",
            ),
            Fault::NoUnit(name) => error(
                page,
                102,
                b"no such unit: ",
                name,
                b" (table, rom, pla, sequencer or the path of a store file)",
            ),
            Fault::NoFile(name) => error(page, 103, b"no such file: ", name, b""),
            Fault::NoReading(name) => error(page, 104, b"cannot be read: ", name, b""),
            Fault::NoNumber(text) => error(
                page,
                105,
                b"the number of cycles is no decimal number: ",
                text,
                b"",
            ),
            Fault::BadSheet => error(
                page,
                106,
                b"bad input: a sheet has at most 64 lines ",
                b"of eight lower-case hexadecimal digits, ",
                b"each ended by a newline",
            ),
            Fault::Refused(refusal) => {
                page.text(b"refusal ");
                refusal_text(page, refusal);
            }
        }
    }

    // In one line. One that cannot be written is let go: nobody is there to be told. No argument
    // that is named has more than 4,096 bytes, so the page has room for the line.
    pub(crate) fn print(self, to: Stderr) {
        let mut room = [b' '; 8192];
        let mut page = Page::at(&mut room, 0);
        page.text(b"watch: ");
        self.tell(&mut page);
        page.put(b'\n');
        let place = page.place;
        if let Some(line) = room.get(..place) {
            let _ = to.write_all(line);
        }
    }
}

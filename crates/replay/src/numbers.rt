// The parts of a line: a word, and numbers after it, with one blank between.

// That a line is no case.
#[derive(Clone, Copy, Debug, PartialEq, Eq)]
pub(crate) struct BadCase;

// The parts of a line that are not yet taken; none after the last.
#[derive(Clone, Copy)]
pub(crate) struct Numbers<'a> {
    left: Option<&'a [u8]>,
}

// What a digit is worth.
fn digit(byte: u8) -> Option<u32> {
    match byte {
        b'0'..=b'9' => Some(u32::from(byte - b'0')),
        b'a'..=b'f' => Some(u32::from(byte - b'a') + 10),
        _ => None,
    }
}

// The number that one to eight digits are. `u32::from_str_radix` would take a sign and upper-case
// digits too.
fn number(digits: &[u8]) -> Option<u32> {
    if digits.is_empty() || digits.len() > 8 {
        return None;
    }
    let mut number = 0;
    for byte in digits {
        number = number << 4 | digit(*byte)?;
    }
    Some(number)
}

impl<'a> Numbers<'a> {
    // All parts of a line.
    pub(crate) fn of(line: &'a [u8]) -> Numbers<'a> {
        Numbers { left: Some(line) }
    }

    // Takes the next part, whatever it is.
    pub(crate) fn take_word(&mut self) -> Result<&'a [u8], BadCase> {
        let left = self.left.ok_or(BadCase)?;
        match left.iter().position(|byte| *byte == b' ') {
            Some(at) => {
                self.left = Some(&left[at + 1..]);
                Ok(&left[..at])
            }
            None => {
                self.left = None;
                Ok(left)
            }
        }
    }

    // Takes a number, which its type has to hold.
    pub(crate) fn take<T: TryFrom<u32>>(&mut self) -> Result<T, BadCase>
    where
        T::Error: Drop,
    {
        let number = number(self.take_word()?).ok_or(BadCase)?;
        T::try_from(number).map_err(|_| BadCase)
    }

    // Takes as many numbers as there is room for.
    pub(crate) fn fill<T: TryFrom<u32> + Drop>(&mut self, room: &mut [T]) -> Result<(), BadCase>
    where
        T::Error: Drop,
    {
        for number in room.iter_mut() {
            *number = self.take()?;
        }
        Ok(())
    }

    // Takes N numbers.
    pub(crate) fn take_array<T: TryFrom<u32> + Copy + Default, const N: usize>(
        &mut self,
    ) -> Result<[T; N], BadCase>
    where
        T::Error: Drop,
    {
        let mut array = [T::default(); N];
        self.fill(&mut array)?;
        Ok(array)
    }

    // That all are taken.
    pub(crate) fn end(self) -> Result<(), BadCase> {
        match self.left {
            None => Ok(()),
            Some(_) => Err(BadCase),
        }
    }
}

// Numbers, in the digits that a reader of the table expects: digit by digit and by no `Display`,
// since `page.specs.Numbers` promises each byte.
ghost use Rattle.std.specs.Prelude.{◌≡◌, ◌/◌, ◌^◌, ◌<◌};
ghost use Rattle.page.specs.Lent.{Becomes};
ghost use Rattle.page.specs.Numbers as of;

use crate::marks::Page;

// The hexadecimal digit that is the low four bits of a number.
fn hex_digit(n: u32) -> u8
    ensures { result ≡ of.hex_digit n }
{
    let d = n % 16;
    if d < 10 {
        return (48 + d) as u8;
    }
    (87 + d) as u8
}

// The last decimal digit of a number.
fn digit(n: u32) -> u8
    ensures { result ≡ of.decimal_digit n }
{
    (48 + n % 10) as u8
}

// A digit of a column, or a blank in front of the number.
fn placed(left: u32) -> u8
    ensures { result ≡ of.column_digit left }
{
    if left == 0 {
        return b' ';
    }
    digit(left)
}

// The low bit of a number, as a digit.
fn bit(n: u32) -> u8
    ensures { result ≡ of.bit_digit n }
{
    (48 + n % 2) as u8
}

// What is left of a number where so many of its last bits are dropped.
#[tactic(auto, using(crate::proofs::Digits::lefts))]
fn shifted(n: u32, places: u32) -> u32
    ensures { result ≡ n / 2 ^ places }
{
    n.checked_shr(places).unwrap_or(0)
}

// What is left of a number where so many of its last decimal digits are dropped. Each divisor is a
// constant, which the compiler makes a product of, where a division is slow.
#[tactic(auto, using(crate::proofs::Digits::lefts))]
fn dropped(n: u32, places: u32) -> u32
    ensures { result ≡ n / 10 ^ places }
{
    match places {
        0 => n,
        1 => n / 10,
        2 => n / 100,
        3 => n / 1_000,
        4 => n / 10_000,
        5 => n / 100_000,
        6 => n / 1_000_000,
        7 => n / 10_000_000,
        8 => n / 100_000_000,
        9 => n / 1_000_000_000,
        10.. => 0,
    }
}

impl Page<'_> {
    // So many low bits of a number, the highest first.
    #[tactic(auto, unfolding(crate::specs::Numbers::bits, crate::specs::Lent::seen), using(crate::proofs::Digits::steps))]
    pub fn bits(&mut self, width: u32, n: u32)
        ensures { Becomes self.old self.new (of.bits width n) }
    {
        let mut page = Page::at(self.bytes, self.place);
        for place in (0..width).rev() {
            page.put(bit(shifted(n, place)));
        }
        self.place = page.place;
    }

    // A word, in eight hexadecimal digits.
    #[tactic(auto, unfolding(crate::specs::Numbers::hex, crate::specs::Lent::seen), using(crate::proofs::Digits::steps, crate::proofs::Digits::hexadecimal))]
    pub fn hex(&mut self, word: u32)
        ensures { Becomes self.old self.new (of.hex word) }
    {
        let mut page = Page::at(self.bytes, self.place);
        for place in (0..8).rev() {
            page.put(hex_digit(shifted(word, 4 * place)));
        }
        self.place = page.place;
    }

    // A number in so many places, and at least one: its last digits, and blanks in front of it.
    #[tactic(auto, unfolding(crate::specs::Numbers::places), using(crate::proofs::Digits::steps))]
    pub fn places(&mut self, width: u32, n: u32)
        ensures { Becomes self.old self.new (of.places width n) }
    {
        for place in (0..width.saturating_sub(1)).rev() {
            self.put(placed(dropped(n / 10, place)));
        }
        self.put(digit(n));
    }

    // A digit by what is left of the number at its place: none where nothing is left.
    #[tactic(auto, unfolding(crate::specs::Numbers::leading))]
    fn leading(&mut self, left: u32)
        ensures { Becomes self.old self.new (of.leading left) }
    {
        if left > 0 {
            self.put(digit(left));
        }
    }

    // A number in decimal, in as many digits as it takes.
    #[tactic(auto, unfolding(crate::specs::Numbers::decimal), using(crate::proofs::Digits::steps))]
    pub fn decimal(&mut self, n: u32)
        ensures { Becomes self.old self.new (of.decimal n) }
    {
        for place in (0..9).rev() {
            self.leading(dropped(n / 10, place));
        }
        self.put(digit(n));
    }

    // A 16-bit field as the signed number that it is.
    #[tactic(auto, unfolding(crate::specs::Numbers::signed_decimal))]
    pub fn signed(&mut self, field: u16)
        ensures { Becomes self.old self.new (of.signed_decimal field) }
    {
        if field < 32768 {
            self.decimal(u32::from(field));
        } else {
            self.put(b'-');
            self.decimal(65536 - u32::from(field));
        }
    }
}

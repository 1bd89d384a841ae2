// A page, with single bytes put on it, and some of them.
ghost use Rattle.std.specs.Prelude.{◌≡◌};
ghost use Rattle.page.specs.Pages as of;
ghost use Rattle.page.specs.Lent.{Becomes, seen};
ghost use Rattle.page.specs.Pages.{page};

// A buffer that is lent, and the place at which the next byte goes. What is put on a page goes to
// that place and moves it on; where the page is full, what has no room is left out. What a function
// promises is what the page becomes, on the same loan: so who lent the buffer knows what it holds
// once the loan ends. It has no `Model`, tried and left: behind one, with the loan in its value or
// not, nothing was known of the buffer after a call.
#[derive(Drop)]
pub struct Page<'a> {
    pub bytes: &'a mut [u8],
    pub place: usize,
}

impl<'a> Page<'a> {
    // A page over a lent buffer, with the place at which the next byte goes.
    #[tactic(auto, unfolding(crate::specs::Lent::seen))]
    pub fn at(bytes: &'a mut [u8], place: usize) -> Page<'a>
        ensures same_reference { result.bytes.ghost_name ≡ bytes.entry.ghost_name }
        ensures page { seen result ≡ page bytes.old place }
    {
        Page { bytes, place }
    }

    // One byte.
    #[tactic(auto, unfolding(crate::specs::Pages::put, crate::specs::Lent::seen))]
    pub fn put(&mut self, byte: u8)
        ensures { Becomes self.old self.new (of.put byte) }
    {
        if self.place < self.bytes.len() {
            self.bytes[self.place] = byte;
            self.place += 1;
        }
    }

    // Some bytes: on a page of its own over the same buffer, here and in long numbers, since the
    // compiler holds such a page's place in a register, and that of `self` in memory.
    #[tactic(auto, unfolding(crate::specs::Lent::seen), using(crate::proofs::Written::write_next, crate::proofs::Written::write_end))]
    pub fn text(&mut self, bytes: &[u8])
        ensures { Becomes self.old self.new (of.write bytes.now) }
    {
        let mut page = Page::at(self.bytes, self.place);
        for byte in bytes {
            page.put(*byte);
        }
        self.place = page.place;
    }

    // Blanks up to a place.
    #[tactic(auto, unfolding(crate::specs::Lent::seen), using(crate::proofs::Written::space_steps))]
    pub fn blanks(&mut self, to: usize)
        ensures { Becomes self.old self.new (of.up_to to) }
    {
        for _place in self.place..to {
            self.put(b' ');
        }
    }
}

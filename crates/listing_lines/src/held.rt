// What is held of a line that has not ended.
ghost use Rattle.std.specs.Prelude.{◌≡◌, ◌≤◌, set};

// The first bytes of a line, at most 36. The longest request has 35, so a longer line is no request whether or not the rest is known.
#[derive(Clone, Copy, Debug, PartialEq, Eq)]
pub struct HeldLine {
    pub text: [u8; 36],
    pub len: usize,
    pub ghost few: { len ≤ 36 },
}

impl HeldLine {
    ghost use Rattle.listing_lines.specs.Held.{held_of, one_more};

    pub fn new() -> HeldLine
        ensures { result.len ≡ 0 }
    {
        HeldLine {
            text: [0; 36],
            len: 0,
        }
    }

    // The bytes that are held.
    pub fn bytes(&self) -> &[u8]
        ensures { result.now ≡ held_of self.now }
    {
        &self.text[..self.len]
    }

    // One byte more. The byte past the 36 is not stored.
    pub(crate) fn push(&mut self, b: u8)
        ensures len { self.new.len ≡ one_more self.old.len }
        ensures text { self.new.text ≡ set self.old.text self.old.len b }
    {
        if self.len < self.text.len() {
            self.text[self.len] = b;
            self.len += 1;
        }
    }

    // The line has ended.
    pub(crate) fn clear(&mut self)
        ensures len { self.new.len ≡ 0 }
        ensures text { self.new.text ≡ self.old.text }
    {
        self.len = 0;
    }
}

// Values by rule.
ghost use Rattle.std.specs.Prelude.{◌≡◌, length};
ghost use Rattle.lists.specs.Says.{value_of, follows};

// A value's first byte, and the step from each byte to the next.
#[derive(Clone, Copy)]
pub struct Rule {
    pub first: u8,
    pub step: u8,
}

impl Rule {
    // The value in the lent bytes.
    pub fn fill(self, s: &mut [u8])
        ensures { s.new ≡ value_of (length s.old) self.first self.step }
    {
        let mut b = self.first;
        for x in s.iter_mut() {
            *x = b;
            b = b.wrapping_add(self.step);
        }
    }

    // Are these the value's bytes?
    pub fn is_followed(self, s: &[u8]) -> bool
        ensures { result ≡ follows s.now self.first self.step }
    {
        let mut due = self.first;
        for x in s {
            if *x != due {
                return false;
            }
            due = due.wrapping_add(self.step);
        }
        true
    }
}

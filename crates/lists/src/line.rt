// A line of a list: a letter, then numbers, each after one space. It is read byte by byte.
ghost use Rattle.std.specs.Prelude.{◌≡◌};

// A call as far as its line is read: its letter, how many numbers it has, these first of eight, and whether a digit is
// due, as after a space. An array and a count: a list of the library is not copied as a line is.
#[derive(Clone, Copy)]
pub struct Call {
    pub letter: u8,
    pub count: usize,
    pub numbers: [u32; 8],
    pub due: bool,
}

// A line as far as it is read.
#[derive(Clone, Copy, Default)]
pub enum Line {
    #[default]
    Blank, // nothing is read yet
    Comment,
    Broken, // its bytes are no line of a list
    Call(Call),
}

impl Call {
    ghost use Rattle.lists.specs.Reads.{lettered, begun, grown};

    // A letter alone.
    fn new(letter: u8) -> Call
        ensures { result ≡ lettered letter }
    {
        Call {
            letter,
            count: 0,
            numbers: [0; 8],
            due: false,
        }
    }

    // A space begins a number, the eighth at most.
    fn begin(mut self) -> Option<Call>
        ensures { result ≡ begun self }
    {
        if self.due || 8 <= self.count {
            return None;
        }
        self.count += 1;
        self.due = true;
        Some(self)
    }

    // A digit goes on with the last number, which has 32 bits.
    fn grow(mut self, digit: u32) -> Option<Call>
        ensures { result ≡ grown self digit }
    {
        if self.count == 0 || 8 < self.count {
            return None;
        }
        let last = self.count - 1;
        self.numbers[last] = self.numbers[last].checked_mul(10)?.checked_add(digit)?;
        self.due = false;
        Some(self)
    }
}

impl Line {
    ghost use Rattle.lists.specs.Reads.{opened, going_on, read_byte};

    // A line's first byte.
    fn open(b: u8) -> Line
        ensures { result ≡ opened b }
    {
        match b {
            b'\n' => Line::Blank,
            b'#' => Line::Comment,
            b'?' => Line::Broken,
            letter => Line::Call(Call::new(letter)),
        }
    }

    // A call's line goes on, or else it is no line of a list.
    fn going_on(call: Option<Call>) -> Line
        ensures { result ≡ going_on call }
    {
        match call {
            Some(call) => Line::Call(call),
            None => Line::Broken,
        }
    }

    // The line with one byte more; a line end is no byte of it.
    pub fn read_byte(self, b: u8) -> Line
        ensures { result ≡ read_byte self b }
    {
        match self {
            Line::Blank => Line::open(b),
            Line::Comment => Line::Comment,
            Line::Broken => Line::Broken,
            Line::Call(call) => Line::going_on(match b {
                b' ' => call.begin(),
                b'0'..=b'9' => call.grow(u32::from(b - b'0')),
                _ => None,
            }),
        }
    }
}

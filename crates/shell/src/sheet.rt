// Output: what waits to be written, and bytes in hexadecimal.
ghost use Rattle.std.specs.Prelude.{◌≤◌, vec_len};

use std::alloc::Global;
use std::fmt::Display;
use std::io::Write;
use std::{fmt, str};

// How many bytes wait at most.
const ROOM: usize = 65533;

/// Output to a writer. What is put on a sheet waits until the sheet is full or flushed. After a write that fails, all
/// goes nowhere.
#[derive(Drop)]
pub struct Sheet<W: Write + Drop> {
    to: W,
    waiting: Vec<u8>,
    lost: bool,
    ghost fits: { vec_len waiting ≤ 65533 },
}

impl<W: Write + Drop> Sheet<W> {
    pub fn new(alloc: Global, to: W) -> Self {
        Sheet {
            to,
            waiting: Vec::new(alloc),
            lost: false,
        }
    }

    /// Did a write fail?
    pub fn is_lost(&self) -> bool {
        self.lost
    }

    // Writes at once.
    fn write(&mut self, bytes: &[u8]) {
        if !self.lost {
            self.lost = self.to.write_all(bytes).is_err();
        }
    }

    /// Writes what waits.
    pub fn flush(&mut self) {
        if !self.lost && !self.waiting.is_empty() {
            self.lost = self.to.write_all(self.waiting.as_slice()).is_err();
        }
        self.waiting.clear();
    }

    // Bytes after what waits, where they have room: whether they had.
    fn add(&mut self, bytes: &[u8]) -> bool {
        bytes.len() <= ROOM - self.waiting.len() && self.waiting.extend_from_slice(bytes).is_ok()
    }

    /// Bytes that need not be text; those with no room on an empty sheet are written at once.
    pub fn put_bytes(&mut self, bytes: &[u8]) {
        if self.add(bytes) {
            return;
        }
        self.flush();
        if !self.add(bytes) {
            self.write(bytes);
        }
    }

    pub fn put(&mut self, text: impl Display + Drop) {
        // no write to a sheet fails
        let _ = fmt::Write::write(self, text);
    }

    pub fn put_line(&mut self, text: impl Display + Drop) {
        let _ = fmt::Write::writeln(self, text);
    }
}

impl<W: Write + Drop> fmt::Write for Sheet<W> {
    fn write_str(&mut self, text: &str) -> fmt::Result {
        self.put_bytes(text.as_bytes());
        Ok(())
    }
}

/// Bytes in hexadecimal; a line for none.
#[derive(Clone, Copy)]
pub struct Hex<'a>(pub &'a [u8]);

impl fmt::Display for Hex<'_> {
    fn fmt<W: fmt::Write>(&self, f: &mut fmt::Formatter<W>) -> fmt::Result {
        if self.0.is_empty() {
            return f.write_str("-");
        }
        // 32 bytes are written together: one by one they would take twice as long
        let mut digits = [b'0'; 64];
        for bytes in self.0.chunks(32) {
            for (pair, byte) in digits.as_chunks_mut::<2>().0.iter_mut().zip(bytes) {
                *pair = tool::hex::show(*byte);
            }
            let text = digits
                .get(..2 * bytes.len())
                .and_then(|digits| str::from_utf8(digits).ok())
                .ok_or(fmt::Error)?;
            f.write_str(text)?;
        }
        Ok(())
    }
}

#[cfg(test)]
mod tests {
    use super::*;

    #[test]
    fn nothing_is_written_after_a_failed_write(rt: HostRuntime) {
        let mut written = [b'.'; 4];
        let mut sheet = Sheet::new(rt.alloc(), written.as_mut_slice());
        sheet.put("ab");
        sheet.flush();
        sheet.put("cde");
        assert!(rt; !sheet.is_lost());
        sheet.flush();
        assert!(rt; sheet.is_lost());
        sheet.put("f");
        sheet.flush();
        drop(sheet);
        assert_eq!(rt; written.as_slice(), b"abcd".as_slice());
    }

    #[test]
    fn a_long_text_is_written_at_once(rt: HostRuntime) {
        let mut written = [b'.'; ROOM + 2];
        let mut sheet = Sheet::new(rt.alloc(), written.as_mut_slice());
        sheet.put("a");
        sheet.put_bytes(&[b'b'; ROOM + 1]);
        drop(sheet);
        assert!(rt; written[0] == b'a' && written[1..].iter().all(|b| *b == b'b'));
    }

    #[test]
    fn bytes_are_pairs_of_digits(rt: HostRuntime) {
        assert!(rt;
            format!(in rt.alloc(); "{}", Hex(b"\x00\x1f\xff")).is_ok_and(|text| text.as_str()
                == "001fff")
        );
        assert!(rt; format!(in rt.alloc(); "{}", Hex(b"")).is_ok_and(|text| text.as_str() == "-"));
    }
}

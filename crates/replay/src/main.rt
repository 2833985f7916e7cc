// Replays lists of calls and their answers on the public calls, and says what differs. What can't be written is let go.
#![tactic(auto)]

mod score;
mod turn;

use lists::line::{Call, Line};
use lists::play::Run;
use score::Score;
use std::env::FillError;
use std::fs::File;
use std::io::Read;
use std::rt::{Env, Files};

// A list as far as it is replayed, and the room for its images and values.
#[derive(Drop)]
struct Replay<'a> {
    img: &'a mut [u8],
    space: &'a mut [u8],
    line: Line,
    run: Run,
    score: Score,
}

impl<'a> Replay<'a> {
    fn new(img: &'a mut [u8], space: &'a mut [u8]) -> Replay<'a> {
        Replay {
            img,
            space,
            line: Line::Blank,
            run: turn::start(0, 0, 0), // until a run begins every call is refused
            score: Score::default(),
        }
    }

    // A call's turn, or the list's end.
    fn take(&mut self, rt: &impl Print, call: &Call) {
        if call.letter == b'q' {
            self.score.end(call);
            return;
        }
        match turn::take(self.img, self.space, &mut self.run, call) {
            Some(equal) => self.score.call(rt, call.letter == b'n', equal),
            None => self.score.refuse(),
        }
    }

    // A line's end: its turn, unless a line before it couldn't be read, and the score.
    fn end_line(&mut self, rt: &impl Print, line: Line) {
        if self.score.is_bad() {
            return;
        }
        match line {
            Line::Comment => self.score.pass(),
            Line::Call(call) if !self.score.is_ended() => self.take(rt, &call),
            _ => self.score.refuse(),
        }
    }

    // A piece of the list. The line is taken out while its bytes are read: in place each byte would cost three times as
    // much. A comment's bytes change nothing.
    fn read(&mut self, rt: &impl Print, bytes: &[u8]) {
        let mut line = self.line;
        for b in bytes {
            if *b == b'\n' {
                self.end_line(rt, line);
                line = Line::Blank;
            } else if !matches!(line, Line::Comment) {
                line = line.read_byte(*b);
            }
        }
        self.line = line;
    }

    // Reads once, and takes what came: whether there may be more. A read that fails ends the list.
    fn read_some<P: Print, F: Read>(&mut self, rt: &P, file: &mut F) -> bool {
        let mut piece = [0u8; 65536];
        let n = file.read(&mut piece).unwrap_or(0);
        self.read(rt, &piece[..n]);
        0 < n
    }

    // The whole list, and its score. A proved loop has to end, and nothing says that a file does; so its turns are counted.
    fn read_all<P: Print, F: Read>(mut self, rt: &P, file: &mut F) -> Score {
        for _ in 0..u64::MAX {
            if !self.read_some(rt, file) {
                break;
            }
        }
        // Bytes after the last line end are a line that can't be read.
        if !matches!(self.line, Line::Blank) {
            self.score.refuse();
        }
        self.score
    }
}

// The file at a path, to be read.
fn open<R: Files>(rt: &R, path: &[u8]) -> Option<R::File> {
    let name = str::from_utf8(path).ok()?;
    File::open(rt, name).ok()
}

// The list at a path.
fn replay_file<R: Files + Print>(rt: &R, path: &[u8], img: &mut [u8], space: &mut [u8]) {
    let _ = rt.write_all(path);
    let _ = rt.write_all(b"\n");
    let Some(mut file) = open(rt, path) else {
        let _ = rt.write_all(b"  it can't be opened\n");
        return;
    };
    let score = Replay::new(img, space).read_all(rt, &mut file);
    let _ = rt.print(score);
}

// The list that an argument names; false where there is no such argument. One that is too long names no file. An argument
// need not be text, so it is read as bytes.
fn replay_arg<R: Env + Files + Print>(
    rt: &R,
    arg: usize,
    img: &mut [u8],
    space: &mut [u8],
) -> bool {
    let mut path = [0u8; 4096];
    match rt.arg(arg, &mut path) {
        Ok(n) => replay_file(rt, &path[..n], img, space),
        Err(FillError::TooLong) => replay_file(rt, b"", img, space),
        Err(FillError::NotPresent) => return false,
    }
    true
}

// Room for so many bytes.
fn room<const N: usize>() -> [u8; N] {
    [0; N]
}

fn main(rt: HostRuntime) {
    let mut img = room::<1048576>(); // the largest image of a list
    let mut space = room::<70000>(); // its longest value
    for k in 1..usize::MAX {
        if !replay_arg(&rt, k, &mut img, &mut space) {
            break;
        }
    }
}

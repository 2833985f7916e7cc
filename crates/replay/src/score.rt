// The count of a list's lines, and the report of it.
use lists::line::Call;
use std::fmt;

// Lines read, runs and calls in them, calls that differ, the first line that can't be read, and whether the list's end is
// seen. No list has so many lines that a count wraps.
#[derive(Clone, Copy, Default)]
pub struct Score {
    lines: u64,
    runs: u64,
    calls: u64,
    wrong: u64,
    bad: Option<u64>,
    ended: bool,
}

impl Score {
    // Is a line read that can't be?
    pub fn is_bad(&self) -> bool {
        self.bad.is_some()
    }

    // Is the list's end seen?
    pub fn is_ended(&self) -> bool {
        self.ended
    }

    // A line that is no call: a comment.
    pub fn pass(&mut self) {
        self.lines = self.lines.wrapping_add(1);
    }

    // A line that can't be read; the first one counts.
    pub fn refuse(&mut self) {
        self.pass();
        if self.bad.is_none() {
            self.bad = Some(self.lines);
        }
    }

    // The list's end, which names the number of calls.
    pub fn end(&mut self, line: &Call) {
        match line.numbers.get(..line.count) {
            Some([calls]) if !line.due && u64::from(*calls) == self.calls => {
                self.pass();
                self.ended = true;
            }
            _ => self.refuse(),
        }
    }

    // A line with a call, the start of a run or another.
    pub fn call(&mut self, rt: &impl Print, starts: bool, equal: bool) {
        self.pass();
        self.calls = self.calls.wrapping_add(1);
        if starts {
            self.runs = self.runs.wrapping_add(1);
        }
        if !equal {
            self.differ(rt);
        }
    }

    // A call that differs: the first 20 are named.
    fn differ(&mut self, rt: &impl Print) {
        self.wrong = self.wrong.wrapping_add(1);
        if self.wrong <= 20 {
            let line = self.lines;
            let _ = println!(rt; "  line {line} differs");
        }
    }
}

impl fmt::Display for Score {
    fn fmt<W: fmt::Write>(&self, f: &mut fmt::Formatter<W>) -> fmt::Result {
        let calls = self.calls;
        let runs = self.runs;
        let wrong = self.wrong;
        writeln!(f, "  {calls} calls in {runs} runs, {wrong} differ")?;
        if let Some(line) = self.bad {
            writeln!(f, "  line {line} can't be read")
        } else if !self.ended {
            writeln!(f, "  the list has no end")
        } else if wrong == 0 {
            writeln!(f, "  all answers are equal")
        } else {
            Ok(())
        }
    }
}

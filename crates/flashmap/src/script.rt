// A script: the commands of a file, one a line. Each is shown before its output; its trouble is told after it.
use crate::command;
use shell::sheet::Sheet;
use std::io::Write;
use std::rt::Files;
use tool::word;

// A command, shown and run: whether it was done.
fn play_command<R: Files + AllocGlobal, W: Write + Drop>(
    rt: &R,
    line: &[u8],
    words: &[&[u8]],
    out: &mut Sheet<W>,
) -> bool {
    out.put("> ");
    out.put_bytes(line);
    out.put("\n");
    match command::run(rt, words, out) {
        Ok(()) => true,
        Err(trouble) => {
            out.put("error: ");
            trouble.tell(words, out);
            false
        }
    }
}

// The first words of a line, and how many these are: six at most, one more than any command has.
fn words_of(line: &[u8]) -> ([&[u8]; 6], usize) {
    let mut words = [b"".as_slice(); 6];
    let mut count = 0usize;
    for k in 0..words.len() {
        let Some(word) = word::word(line, k) else {
            break;
        };
        words[k] = word;
        count = k + 1;
    }
    (words, count)
}

// A line: whether it is no command, or a command that was done.
fn play_line<R: Files + AllocGlobal, W: Write + Drop>(
    rt: &R,
    line: &[u8],
    out: &mut Sheet<W>,
) -> bool {
    let (words, count) = words_of(line);
    let words = &words[..count.min(6)];
    let is_command = words.first().is_some_and(|word| !word.starts_with(b"#"));
    !is_command || play_command(rt, line, words, out)
}

/// All lines: how many commands failed. An empty line, or one whose first word begins with #, is passed over.
pub fn play<R: Files + AllocGlobal, W: Write + Drop>(
    rt: &R,
    script: &[u8],
    out: &mut Sheet<W>,
) -> usize {
    let mut failed = 0usize;
    for line in script.split(|b| *b == b'\n') {
        if !play_line(rt, line, out) {
            failed = failed.saturating_add(1);
        }
    }
    failed
}

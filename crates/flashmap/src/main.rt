// flashmap: shows and changes the image of a flash map, from the command line.
#![tactic(auto)]

mod change;
mod command;
mod demo;
mod image;
mod listing;
mod pages;
mod script;

use shell::file;
use shell::sheet::Sheet;
use shell::trouble::Trouble;
use std::env::{Env, FillError};
use std::io::Stdout;

// How many bytes the arguments have at most, with one after each.
const ARGUMENT_BYTES: usize = 139264;

// How many bytes a script has at most.
const SCRIPT_BYTES: u32 = 65536;

// The arguments, without the program's name.
fn arguments(rt: &(impl Env + AllocGlobal)) -> Result<Vec<Vec<u8>>, Trouble> {
    let mut arguments = Vec::new(rt.alloc());
    // std's list of arguments refuses one that is not UTF-8, so each is read into a buffer
    let mut buffer = [0u8; ARGUMENT_BYTES];
    let mut room = ARGUMENT_BYTES;
    for i in 1..usize::MAX {
        match rt.arg(i, &mut buffer) {
            Err(FillError::NotPresent) => break,
            Err(FillError::TooLong) => return Err(Trouble::Long),
            Ok(n) => {
                room = room.checked_sub(n + 1).ok_or(Trouble::Long)?;
                arguments.push(Vec::from_slice(rt.alloc(), &buffer[..n])?)?;
            }
        }
    }
    Ok(arguments)
}

// Trouble, told on standard error.
fn complain(rt: &HostRuntime, trouble: Trouble, words: &[&[u8]]) {
    let mut errors = Sheet::new(rt.alloc(), rt.stderr());
    errors.put("flashmap: ");
    trouble.tell(words, &mut errors);
    errors.flush();
}

// The end of standard output.
fn finish(rt: &HostRuntime, out: &mut Sheet<Stdout>) {
    out.flush();
    if out.is_lost() {
        let _ = eprintln!(rt; "flashmap: standard output can't be written; give it another place");
    }
}

// One command.
fn run_command(rt: &HostRuntime, words: &[&[u8]]) {
    let mut out = Sheet::new(rt.alloc(), rt.stdout());
    let done = command::run(rt, words, &mut out);
    finish(rt, &mut out);
    if let Err(trouble) = done {
        complain(rt, trouble, words);
    }
}

// The commands of a script.
fn run_script(rt: &HostRuntime, path: &[u8]) -> Result<(), Trouble> {
    let script = file::load(rt, path, SCRIPT_BYTES)?;
    let mut out = Sheet::new(rt.alloc(), rt.stdout());
    let failed = script::play(rt, &script, &mut out);
    finish(rt, &mut out);
    if failed > 0 {
        let _ = eprintln!(rt;
            "flashmap: failed commands of the script: {failed}; its output says which and why"
        );
    }
    Ok(())
}

// A command, or the commands of a script.
fn run(rt: &HostRuntime, words: &[&[u8]]) {
    match words {
        [b"script", path] => {
            if let Err(trouble) = run_script(rt, path) {
                complain(rt, trouble, &[path]);
            }
        }
        _ => run_command(rt, words),
    }
}

// What the arguments ask.
fn start(rt: &HostRuntime) -> Result<(), Trouble> {
    let arguments = arguments(rt)?;
    let words: Vec<&[u8]> = arguments
        .iter()
        .map(|argument| argument.as_slice())
        .collect(rt.alloc())?;
    run(rt, &words);
    Ok(())
}

fn main(rt: HostRuntime) {
    if let Err(trouble) = start(&rt) {
        complain(&rt, trouble, &[]);
    }
}

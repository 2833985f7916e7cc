// Lists of calls and their answers: how a line is read, and a call held against its line.
#![tactic(auto)]

pub mod digest;
pub mod line;
pub mod play;
pub mod value;

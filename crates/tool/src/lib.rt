// The pure parts of a tool over the map: typed numbers, hexadecimal, the words of a line, a bar, the last of each key.
#![tactic(auto)]

pub mod bar;
pub mod hex;
pub mod last;
pub mod number;
pub mod word;

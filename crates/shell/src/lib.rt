// The outer side of a tool over the map: output, whole files, and what can go wrong.
#![tactic(auto)]

pub mod file;
pub mod sheet;
pub mod trouble;

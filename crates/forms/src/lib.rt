// How values stand in a record and in a line: reading and printing.
#![tactic(auto)]

pub mod read; // names and values in a record
pub mod print; // a value as a line shows it

// Records: where one ends in the bytes at hand, and what it says.
#![tactic(auto)]

pub mod frame; // where a record ends in the bytes at hand
pub mod reader; // a reader that holds its record and a position
pub mod record; // whether a record's bytes say a request, and where they break

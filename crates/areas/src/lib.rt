// Sorted areas of records in lent bytes.
#![tactic(auto)]

pub mod area; // areas of records of one width
pub mod search; // the place of a name, a key or an entry in a sorted area

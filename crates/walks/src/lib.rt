// Walks over rows and index entries: a table's rows, the keys of a value, the first row that refers to another.
#![tactic(auto)]

pub mod walk; // a table's rows, and the keys of an indexed value
pub mod referrer; // local.rs: delete's reference test

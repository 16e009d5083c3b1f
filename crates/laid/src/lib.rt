// The store as it is laid out in a lent buffer: where things stand, and how they are found.
#![tactic(auto)]

pub mod layout; // where things stand
pub mod catalog; // a stored schema's columns, and the place of a table
pub mod row; // rows by place
pub mod entry; // index entries by place
pub mod run; // the records of one table

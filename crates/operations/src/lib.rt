// A request that a record says, carried out over a store and its journal.
#![tactic(auto)]

pub mod batch; // 12 to 14: a batch opened, kept, taken back
pub mod create; // 1: the schema that a record says
pub mod operate; // each operation, its operands read where they stand

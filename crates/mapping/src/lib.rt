// What rows and pairs of a request say, and what is wrong with them before any is written.
#![tactic(auto)]

pub mod executor; // 3: executor.rs, the mapping of insert
pub mod update; // 4: the pairs of an update

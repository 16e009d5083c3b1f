// The changes of a row in a store that is laid out.
#![tactic(auto)]

pub mod change; // a row added, replaced, removed

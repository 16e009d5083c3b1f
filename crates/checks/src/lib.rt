// The parts of the checks of a schema and of a row.
#![tactic(auto)]

pub mod schema_fault; // schema.rs: what is wrong with a schema, part by part
pub mod row_fault; // schema.rs: what is wrong with a row, part by part
pub mod keys; // keys in a request's bytes

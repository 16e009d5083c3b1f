// The store: schema.rs and local.rs over a lent buffer.
#![tactic(auto)]

pub mod schema; // schema.rs: what is wrong with a schema, and with a row
pub mod local; // local.rs: the catalog
pub mod reads; // local.rs: get, lookup, scan
pub mod noting; // what stands at a key, before it is changed
pub mod removals; // how many rows go with keys
pub mod rows; // local.rs: insert, update, delete

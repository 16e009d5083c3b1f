// Values, their cells, equality and order.
#![tactic(auto)]

pub mod bytes; // numbers as bytes, bytes compared and cleared
pub mod value; // texts and values, their kinds, equality and order
pub mod cell; // name cells and value cells

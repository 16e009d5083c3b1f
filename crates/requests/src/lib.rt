// Requests: from bytes to lines, over any bytes whatever.
#![tactic(auto)]

pub mod line; // single lines: an answer, a row
pub mod lines; // a request's lines, as many as fit
pub mod entry; // one record, many records: over any bytes whatever

// A fresh store, and the test whether any lent bytes are a sound store, and its journal.
#![tactic(auto)]

pub mod fresh; // a fresh store in a lent buffer, and which lengths a store has
pub mod layout_test; // the header, and zeros where nothing stands
pub mod schema_test; // the tables: each a record, sorted, without a fault
pub mod row_test; // the rows: each a record that fits its table, sorted
pub mod reference_test; // references that are not NULL: each names a stored row
pub mod index_test; // the index: sorted, the entries of the rows and no others, values of unique columns once
pub mod soundness; // the verdict on any lent bytes
pub mod journal_test; // the verdict on a lent journal beside a sound store

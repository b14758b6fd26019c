//! What readers of JSON forms share: tests of a value, of its items and of its members, over `serde_json`'s values.
#![tactic(auto)]

mod form;

pub use form::{each_named, is_list_of, is_number, is_object_of, is_text};

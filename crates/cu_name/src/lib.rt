//! The names of arrays and the ids of nodes, and the keys that a plan makes of them.
#![tactic(auto)]

mod id_text;
mod keys;
mod name;

pub use id_text::{ID_BYTES, IdText};
pub use keys::{key_of_name, made_prefix, name_of, record_key};
pub use name::is_name;

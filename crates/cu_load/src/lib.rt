//! The command `load`: it stores one array that is given as a JSON text.
#![tactic(auto)]

mod ask;
mod chunk;
mod command;
mod laws;
mod load_form;
mod report;
mod room;
mod store;

pub use ask::ask_keys;
pub use command::load;
pub use laws::form_law;
pub use load_form::LoadForm;
pub use room::{Room, take_room};
pub use store::store_array;

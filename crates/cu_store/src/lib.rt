//! The traits of the outside: a source of bytes, a sink for bytes, a depot of chunks under keys, and a yard in which several
//! workers share the chunks of a depot for a while.
//! Everything above this crate is generic over them, and knows of files, terminals and memory only what their clauses say.
#![tactic(auto)]

mod chunks;
mod depot;
mod faults;
mod key;
mod laws;
mod promise;
mod share;
mod streams;
mod tries;
mod yard;

pub use chunks::{Chunks, InDepot, InYard};
pub use depot::{Depot, Got, PutStore};
pub use faults::{DepotFault, Failed, NoMemory, TaskFault};
pub use key::Key;
pub use laws::{Changing, steps_compose};
pub use promise::{Promise, Promised};
pub use share::{Gate, NoGate, Share, SharedStore, share_tries};
pub use streams::{Sink, Source};
pub use tries::{get_tries, has_tries, put_tries, remove_tries};
pub use yard::{Spec, Yard};

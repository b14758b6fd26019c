//! What the commands share: their answers, whole texts from a source and to a sink, the depot's calls
//! for one key, the layout of a stored array and its chunks, and the typed expression of a text.
#![tactic(auto)]

mod chunks;
mod inputs;
mod job;
mod keys;
mod laws;
mod status;
mod stored;
mod streams;

pub use chunks::read_stored_chunk;
pub use inputs::{read_input, read_inputs, read_written};
pub use job::{Job, JobFault, read_job, said_in, types_in};
pub use keys::{ask_key, put_value};
pub use laws::{names_law, stored_law};
pub use status::{LineText, Status, number, push_field, status_line};
pub use stored::{find_layout, metadata_room, read_layout, zeros};
pub use streams::{StreamRefused, read_all, write_all};

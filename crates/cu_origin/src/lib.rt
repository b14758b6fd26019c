//! Views of arrays and arrays that are made from nothing: from where each element of the result comes.
#![tactic(auto)]

mod axes;
mod laws;
mod provenance;
mod pull;

pub use axes::Axes;
pub use laws::origins_inside;
pub use provenance::Provenance;
pub use pull::Pull;

//! Views: where each element of a result comes from, over an index and over boxes of indices, and how it gets there.
//!
//! `origin` and `touches` ask so of an operation of a plan, for who looks at one: nothing in the program calls them. `origin_of` and
//! `touches_of` are the same over shapes, and a task of a view calls these.
#![tactic(auto)]

mod boxes;
mod constants;
mod elements;
mod fills;
mod gathering;
mod hull;
mod ones;
mod origins;
mod pieces;
mod planned;
mod touching;
mod triangles;
mod ways;

pub use constants::lay_constants;
pub use cu_origin::Provenance;
pub use gathering::gather;
pub use hull::hull_of;
pub use origins::origin_of;
pub use pieces::{piece_at, piece_count};
pub use planned::{origin, touches};
pub use touching::touches_of;

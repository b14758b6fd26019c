//! Shapes and indices of arrays: sizes of at most six axes, row-major places, broadcasting and
//! the slices of Python.
#![tactic(auto)]

mod broadcasting;
mod changes;
mod counts;
mod dims;
mod fault;
mod index;
mod laws;
mod matrix;
mod several;
mod sizes;
mod slice;

pub use broadcasting::broadcast;
pub use counts::{chunk_counts, is_above};
pub use dims::Dims;
pub use fault::ShapeFault;
pub use index::{back, difference, greater, index_of, is_inside, place, smaller};
pub use laws::{broadcasting_reads_inside, places_and_indices};
pub use several::{broadcast_all, broadcast_in};
pub use slice::{Run, slice_of};

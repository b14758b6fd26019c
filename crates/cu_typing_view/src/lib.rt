//! The typing of arrays that are made and of views: from what is known of the arguments, the type, shape and chunk shape of
//! the result, or the first fault.
#![tactic(auto)]

mod creation;
mod entries;
mod laws;
mod new_shapes;
mod pieces;
mod rearranged;
mod reshaped;

pub use creation::{type_arange, type_eye, type_full};
pub use entries::{type_index, untaken, width_of};
pub use laws::{broadcast_law, counts_law, new_shape_law, reshape_law};
pub use new_shapes::type_new_shape;
pub use pieces::{type_concat, type_stack};
pub use rearranged::{type_flip, type_permute, type_roll, type_triangle};
pub use reshaped::{type_broadcast, type_rechunk};

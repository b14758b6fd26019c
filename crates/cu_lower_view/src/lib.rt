//! The pull of a view: from where each element of a node's array comes, by the node's form and what is known of the arrays that
//! it reads.
#![tactic(auto)]

mod axes;
mod entries;
mod laws;
mod view;

pub use laws::pull_law;
pub use view::pull_of;

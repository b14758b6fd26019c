//! Arrays of a plan, the operations that make them, and what each array means.
#![tactic(auto)]

mod cells;
mod copies;
mod groups;
mod inlining;
mod kernel;
mod kinds;
mod laws;
mod layout;
mod memory;
mod needs;
mod numbers;
mod operation;
mod plan;
mod regions;
mod schedule;
mod task;
mod walks;

pub use cells::Cell;
pub use cu_origin::{Axes, Pull};
pub use inlining::{is_listed, listed_number};
pub use kernel::{Instr, Kernel};
pub use kinds::{KindText, input_room, kind_name, output_room};
pub use laws::{
    all_stored_law, chunk_law, inlined_law, inner_law, input_cells_law, input_law, key_law,
    one_map_law, projection_law, range_law, ready_law, region_law, task_law, value_law,
};
pub use layout::{ArrayInfo, Layout, same_grid};
pub use memory::{chunk_room, own_projection, scratch_room};
pub use needs::steps_within;
pub use numbers::{new_number, number_in, stands_in};
pub use operation::{Op, Planned};
pub use plan::Plan;
pub use schedule::{
    input_walks, inputs, maker, outputs, projected, region_count, task_grid, task_region, tasks,
};
pub use task::PlanTask;
pub use walks::{Cells1, Cells2, Walk};

//! The commands that targets need, each after the commands that it needs; and marks, at which a
//! walk over them stops and is resumed, with their written form.
#![tactic(auto)]

mod frame;
mod growing;
mod laws;
mod looks;
mod mark_fault;
mod mark_laws;
mod mark_numbers;
mod marks;
mod needs;
mod next_edge;
mod page_walk;
mod reserved_list;
mod resume_point;
mod resuming;
mod walk;

pub use growing::{grow_targets, growing_law};
pub use laws::{order_law, page_law, place_law, unfolding_law};
pub use mark_fault::MarkFault;
pub use mark_laws::{given_marks_are_written, written_marks_are_given};
pub use marks::Mark;
pub use needs::Needs;

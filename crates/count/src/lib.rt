#![tactic(auto)]

mod answers;
mod board_changes;
mod counts;
mod fronts;
mod guides;
mod hand_over;
mod instants;
mod machine;
mod reactions;
mod ready;
mod tracers;
mod words;

pub use answers::Closing;
pub use board_changes::{Moved, change_board};
pub use counts::Count;
pub use hand_over::Released;
pub use record::Phase;
pub use tracers::{MOST_STEPS, StepRow, Tracer};

#![tactic(auto)]

mod candidates;
mod heads;
mod layout;
mod marks;
mod phases;
mod reading;
mod standings;
mod writing;

pub use heads::{Head, MOST_INSTANTS};
pub use layout::{HEAD_BYTES, HEAD_START, MARKS_START, RECORD_BYTES};
pub use phases::Phase;
pub use reading::{Saved, read};
pub use standings::Standing;
pub use writing::write;

#![tactic(auto)]

mod checked;
mod checker;
mod drafts;
mod kinds;
mod loader;
mod reader;
mod reasons;
mod refusals;
mod rows;
mod tables;

pub use checked::Routine;
pub use checker::check;
pub use kinds::{Kind, Mark, SignalKind, Statement};
pub use loader::load;
pub use reader::read;
pub use reasons::Reason;
pub use refusals::Refusal;
pub use tables::{MOST_SIGNALS, MOST_STATEMENTS, MOST_TABLE_BYTES, Table};

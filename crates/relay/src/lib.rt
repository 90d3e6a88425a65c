#![tactic(auto)]

mod call;
mod carry_out;
mod events;
mod keepers;
mod listeners;
mod news;
mod resumes;
mod two_boards;

pub use call::Call;
pub use carry_out::carry_out_all;
pub use events::Event;
pub use keepers::Keeper;
pub use listeners::Listener;
pub use news::News;
pub use resumes::resume;
pub use two_boards::{Plan, Relayed, relay, relay_twice};

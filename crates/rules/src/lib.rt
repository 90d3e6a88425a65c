#![tactic(auto)]

mod status;
pub mod theorems;

pub use status::Status;

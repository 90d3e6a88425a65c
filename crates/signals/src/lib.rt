#![tactic(auto, using(crate::proofs::Boards::boards))]

mod bits;
mod board;
mod stamps;

pub use bits::BitBoard;
pub use board::{Board, SIGNALS};
pub use stamps::StampBoard;

#[cfg(test)]
mod tests;

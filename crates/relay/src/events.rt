use count::Closing;
use routine::{Mark, Refusal};

/// What a call came to, as a `Keeper` keeps it: its lists are its own, so it outlives the call.
/// `News` is the same while the call is told, and takes no memory.
#[derive(Debug, Drop)]
pub enum Event {
    /// A begin was accepted.
    Begun {
        word: u64,
    },
    /// A step of that statement was accepted.
    Stepped {
        statement: usize,
    },
    /// A close was accepted.
    Closed {
        closing: Closing,
        /// The marks that remain, one for each statement.
        marks: Vec<Mark>,
    },
    /// A react was accepted.
    Reacted {
        word: u64,
        closing: Closing,
        /// The marks that remain, one for each statement.
        marks: Vec<Mark>,
        /// The statements that it stepped, in their order.
        stepped: Vec<usize>,
    },
    /// A record was taken over.
    TakenOver,
    /// The call was refused, so the count is as it was.
    Refused {
        refusal: Refusal,
    },
}

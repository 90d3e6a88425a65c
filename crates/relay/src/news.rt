use count::Closing;
use routine::{Refusal, Statement};

/// What a call came to, as a listener hears it: it lends its lists until the next call and takes
/// no memory. `Event` is the same for keeping.
#[derive(Clone, Copy, Debug)]
pub enum News<'a> {
    /// A begin was accepted.
    Begun {
        word: u64,
    },
    /// A step of that statement was accepted.
    Stepped {
        statement: usize,
    },
    /// A close was accepted.
    Closed {
        closing: Closing,
        /// All statements, with the marks that remain.
        statements: &'a [Statement],
    },
    /// A react was accepted.
    Reacted {
        word: u64,
        closing: Closing,
        /// All statements, with the marks that remain.
        statements: &'a [Statement],
        /// The statements that it stepped, in their order.
        stepped: &'a [usize],
    },
    /// A record was taken over.
    TakenOver,
    /// The call was refused, so the count is as it was.
    Refused {
        refusal: Refusal,
    },
}

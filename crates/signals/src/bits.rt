ghost use Rattle.std.specs.Prelude.{◌≡◌};
ghost use Rattle.signals.specs.Sets.{empty, word_set};
ghost use Rattle.signals.specs.Sizes.{length-word_set};

use super::board::{Board, SIGNALS};

/// A board in one word: bit k is 1 where signal k is present.
#[derive(Debug, Drop)]
pub struct BitBoard {
    word: u64,
}

impl BitBoard {
    /// A board on which no signal is present.
    pub fn new() -> BitBoard
        ensures vacant { word_set result.word ≡ empty }
        ensures zero { result.word ≡ 0 }
    {
        BitBoard { word: 0 }
    }
}

impl Board for BitBoard {
    ghost present = { λ b. word_set b.word };

    ghost size = { λ b. length-word_set b.word };

    fn wipe(&mut self) {
        self.word = 0;
    }

    fn raise(&mut self, signal: u8) {
        if usize::from(signal) < SIGNALS {
            self.word |= 1 << signal;
        }
    }

    fn lower(&mut self, signal: u8) {
        if usize::from(signal) < SIGNALS {
            self.word &= !(1 << signal);
        }
    }

    fn ask(&self, signal: u8) -> bool {
        usize::from(signal) < SIGNALS && (self.word >> signal) & 1 == 1
    }
}

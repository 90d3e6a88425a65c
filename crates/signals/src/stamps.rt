ghost use Rattle.std.specs.Prelude.{◌≡◌, ℕ, ◌<◌, ◌≤◌, true, false, replicate, slice_index};
ghost use Rattle.std.specs.Prelude.{slice_set};
ghost use Rattle.signals.specs.Sets.{empty, stamp_set, next_stamp, wiped_stamps};
ghost use Rattle.signals.specs.Sizes.{length-stamp_set};
ghost use Rattle.signals.specs.declared.board.TheConstants.{SIGNALS};

use super::board::{Board, SIGNALS};

// The last stamp that 32 bits hold.
const LAST_STAMP: u32 = u32::MAX;

/// A board with a stamp for each signal: signal k is present where its stamp is the current one.
/// A wipe goes on to the next stamp, which no signal has. After the last stamp it sets all stamps
/// to 0 and begins again with 1.
// No `impl Model`: the contracts speak of the stamps.
#[derive(Debug, Drop)]
pub struct StampBoard {
    pub(crate) stamps: [u32; SIGNALS],
    pub(crate) current: u32,
    // The stamp 0 is never current: a signal that has it is absent.
    ghost started: { 1 ≤ current },
    // No stamp is above the current one: no signal has the next.
    ghost bounded: { ((k : ℕ) → k < SIGNALS → slice_index stamps k ≤ current) },
}

impl StampBoard {
    /// A board on which no signal is present.
    pub fn new() -> StampBoard
        ensures vacant { stamp_set result.stamps result.current ≡ empty }
        ensures row { result.stamps ≡ replicate SIGNALS 0 }
        ensures first { result.current ≡ 1 }
    {
        StampBoard {
            stamps: [0; SIGNALS],
            current: 1,
        }
    }

    // Gives a signal a stamp, if there is one of that number.
    fn stamp(&mut self, signal: u8, stamp: u32)
        requires { stamp ≤ self.old.current }
        ensures row { self.new.stamps ≡ slice_set self.old.stamps signal stamp }
        ensures kept { self.new.current ≡ self.old.current }
    {
        if usize::from(signal) < SIGNALS {
            self.stamps[usize::from(signal)] = stamp;
        }
    }
}

impl Board for StampBoard {
    ghost present = { λ b. stamp_set b.stamps b.current };

    ghost size = { λ b. length-stamp_set b.stamps b.current };

    fn wipe(&mut self)
        ensures vacant { stamp_set self.new.stamps self.new.current ≡ empty }
        ensures row { self.new.stamps ≡ wiped_stamps self.old.stamps self.old.current }
        ensures stamp { self.new.current ≡ next_stamp self.old.current }
    {
        if self.current < LAST_STAMP {
            self.current += 1;
        } else {
            self.stamps = [0; SIGNALS];
            self.current = 1;
        }
    }

    fn raise(&mut self, signal: u8)
        ensures raised { stamp_set self.new.stamps self.new.current
            ≡ slice_set (stamp_set self.old.stamps self.old.current) signal true }
        ensures row { self.new.stamps ≡ slice_set self.old.stamps signal self.old.current }
        ensures stamp { self.new.current ≡ self.old.current }
    {
        self.stamp(signal, self.current);
    }

    fn lower(&mut self, signal: u8)
        ensures lowered { stamp_set self.new.stamps self.new.current
            ≡ slice_set (stamp_set self.old.stamps self.old.current) signal false }
        ensures row { self.new.stamps ≡ slice_set self.old.stamps signal 0 }
        ensures stamp { self.new.current ≡ self.old.current }
    {
        self.stamp(signal, 0);
    }

    fn ask(&self, signal: u8) -> bool {
        self.stamps.get(usize::from(signal)) == Some(&self.current)
    }
}

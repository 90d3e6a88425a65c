ghost use Rattle.std.specs.Prelude.{◌≡◌, Bool, true, false, List, length, slice_index_or};
ghost use Rattle.std.specs.Prelude.{slice_set};
ghost use Rattle.signals.specs.Sets.{empty};
ghost use Rattle.signals.specs.declared.board.TheConstants.{SIGNALS};

/// How many signals a board keeps: those from 0 to 63.
pub const SIGNALS: usize = 64;

/// Which of the signals 0 to 63 are present. A call takes any number: above 63 `raise` and `lower`
/// alter nothing and `ask` says no, since `slice_set` leaves a list as it is past its end, and
/// `slice_index_or` gives its default there.
pub trait Board {
    // The present signals: at place k, is signal k present?
    ghost present: { Self → List Bool };

    /// Makes every signal absent.
    fn wipe(&mut self)
        ensures { present self.new ≡ empty };

    /// Makes the signal present and leaves the others as they are.
    fn raise(&mut self, signal: u8)
        ensures { present self.new ≡ slice_set (present self.old) signal true };

    /// Makes the signal absent and leaves the others as they are.
    fn lower(&mut self, signal: u8)
        ensures { present self.new ≡ slice_set (present self.old) signal false };

    /// Is the signal present? Alters nothing.
    fn ask(&self, signal: u8) -> bool
        ensures { result ≡ slice_index_or (present self.now) signal false };

    // A law: the set has a place for each signal, whatever happened to the board.
    ghost size: { (b : Self) → length (present b) ≡ SIGNALS };
}

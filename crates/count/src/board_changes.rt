ghost use Rattle.std.specs.Prelude.{◌≡◌, length, None};
ghost use Rattle.record.specs.Record.{record_of};
ghost use Rattle.record.specs.Taking.{taking_refusal};
ghost use Rattle.count.specs.CountView.{kinds_of, signals_of, state_of};

use crate::counts::Count;
use crate::hand_over::Released;
use record::RECORD_BYTES;
use signals::Board;

/// A count that went to another board.
#[derive(Debug, Drop)]
pub struct Moved<A, B: Board> {
    /// The count on its new board.
    pub count: Count<B>,
    /// The record by which it went there.
    pub handed: [u8; RECORD_BYTES],
    /// The board that it left, with the signals that were present.
    pub left: A,
}

/// Brings the count to another board, by its record: its state is the same. It is never refused.
pub fn change_board<A: Board, B: Board>(count: Count<A>, board: B) -> Moved<A, B>
    ensures accepted { taking_refusal (signals_of count) (kinds_of count) result.handed ≡ None }
    ensures handed { result.handed ≡ record_of
        (length (signals_of count)) (length (kinds_of count)) (state_of A.present count) }
    ensures state { state_of B.present result.count ≡ state_of A.present count }
    ensures kinds { kinds_of result.count ≡ kinds_of count }
    ensures signals { signals_of result.count ≡ signals_of count }
    ensures left { result.left ≡ count.board }
{
    let mut handed = [0; RECORD_BYTES];
    let Released {
        routine,
        board: left,
    } = count.hand_over(&mut handed);
    let mut count = Count::new(routine, board);
    // The record of a count is never refused, so there is nothing to tell of the answer.
    let _ = count.take_over(&handed);
    Moved {
        count,
        handed,
        left,
    }
}

ghost use Rattle.std.specs.Prelude.{◌∷◌, ◌++◌, map};
ghost use Rattle.count.specs.CountView.{kinds_of, signals_of, state_of};
ghost use Rattle.relay.specs.Asked.{asked, take_over};
ghost use Rattle.relay.specs.Heard.{TellsAll, GoesOn, StaysWhereRefused};

use crate::call::Call;
use crate::carry_out::carry_out_all;
use crate::listeners::Listener;
use count::Count;
use signals::Board;

/// The second half of a relay: carries out some earlier calls, takes a record over, and carries out
/// the later calls. The count may be in any state and on any board. Where the record is the one
/// that some list of calls left, what is heard goes on where that list ended (`goes_on`). A record
/// that is refused changes nothing (`refused`): the later calls follow the earlier ones.
pub fn resume<B: Board, L: Listener>(
    count: &mut Count<B>,
    earlier: &[Call<'_>],
    handed: &[u8],
    later: &[Call<'_>],
    listener: &mut L,
)
    ensures tells { TellsAll B.present count.old count.new
        (map asked earlier.now ++ (take_over handed.now ∷ map asked later.now))
        (L.ear listener.old) (L.ear listener.new) }
    ensures goes_on { GoesOn (signals_of count.old) (kinds_of count.old)
        (state_of B.present count.old) (map asked earlier.now) handed.now (map asked later.now)
        (L.ear listener.old) (L.ear listener.new) }
    ensures refused { StaysWhereRefused (signals_of count.old) (kinds_of count.old)
        (state_of B.present count.old) (map asked earlier.now) handed.now (map asked later.now)
        (L.ear listener.old) (L.ear listener.new) }
{
    carry_out_all(count, earlier, listener);
    carry_out_all(count, &[Call::TakeOver { record: handed }], listener);
    carry_out_all(count, later, listener);
}

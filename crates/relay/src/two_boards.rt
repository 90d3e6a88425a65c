ghost use Rattle.std.specs.Prelude.{map, length};
ghost use Rattle.routine.specs.View.{table_kinds, table_signals};
ghost use Rattle.count.specs.CountView.{kinds_of, signals_of, state_of};
ghost use Rattle.relay.specs.Asked.{asked};
ghost use Rattle.relay.specs.Heard.{ObservedAsModel, ObservedAlike};
ghost use Rattle.relay.specs.History.{after_calls};
ghost use Rattle.relay.specs.Relays.{HandsOn, Relays, LeftAs, at_last};

use crate::call::Call;
use crate::carry_out::carry_out_all;
use crate::listeners::Listener;
use crate::resumes::resume;
use count::Count;
use record::RECORD_BYTES;
use routine::Routine;
use signals::Board;

/// Two boards, and the calls that the count of a relay is to carry out on each.
#[derive(Debug, Drop)]
pub struct Plan<'a, A, B> {
    /// The board of the new count.
    pub first: A,
    /// The board to which the count is handed over.
    pub second: B,
    /// The calls on the first board.
    pub before: &'a [Call<'a>],
    /// The calls on the second board, after the hand-over.
    pub later: &'a [Call<'a>],
}

/// What a relay leaves.
#[derive(Debug, Drop)]
pub struct Relayed<A, B> {
    /// The first board, with the signals that it showed when the count was handed over.
    pub first: A,
    /// The second board, with the signals that it shows at the end.
    pub second: B,
    /// The record that was handed over.
    pub handed: [u8; RECORD_BYTES],
    /// The record that says where the count was left.
    pub left: [u8; RECORD_BYTES],
}

// Hands the count over to the other board by its record, and resumes there with the later calls.
fn hand_on<A: Board, B: Board, L: Listener>(
    count: Count<A>,
    second: B,
    later: &[Call<'_>],
    listener: &mut L,
) -> (Relayed<A, B>, Routine)
    ensures tells { HandsOn A.present B.present (signals_of count) (kinds_of count)
        (state_of A.present count) (map asked later.now)
        (L.ear listener.old) (L.ear listener.new) result.0 }
    ensures routine { LeftAs (signals_of count) (kinds_of count)
        (after_calls (signals_of count) (kinds_of count) (state_of A.present count)
        (map asked later.now)).marks result.1 }
{
    let mut handed = [0; RECORD_BYTES];
    let released = count.hand_over(&mut handed);
    let first = released.board;
    let mut count = Count::new(released.routine, second);
    resume(&mut count, &[], &handed, later, listener);
    let mut left = [0; RECORD_BYTES];
    let released = count.hand_over(&mut left);
    let relayed = Relayed {
        first,
        second: released.board,
        handed,
        left,
    };
    (relayed, released.routine)
}

/// Carries out the first calls of the plan on a new count, hands it over to the second board by its
/// record, and resumes there with the later calls. What the calls come to is told to two listeners,
/// `one` on the first board and `other` on the second, which hears the take over first. Nothing is
/// allocated. The routine is given back beside what is left, with the marks that it has then.
pub fn relay<A: Board, B: Board, K: Listener, L: Listener>(
    routine: Routine,
    plan: Plan<'_, A, B>,
    one: &mut K,
    other: &mut L,
) -> (Relayed<A, B>, Routine)
    ensures tells { Relays A.present B.present
        (table_signals routine.table) (table_kinds routine.table)
        (map asked plan.entry.before.now) (map asked plan.entry.later.now)
        (K.ear one.old) (K.ear one.new) (L.ear other.old) (L.ear other.new) result.0 }
    ensures routine { LeftAs (table_signals routine.table) (table_kinds routine.table)
        (at_last (table_signals routine.table) (table_kinds routine.table)
        (map asked plan.entry.before.now) (map asked plan.entry.later.now)).marks result.1 }
    ensures model { ObservedAsModel (table_signals routine.table) (table_kinds routine.table)
        (K.ear one.old) (K.ear one.new) (L.ear other.old) (L.ear other.new) }
{
    let mut count = Count::new(routine, plan.first);
    carry_out_all(&mut count, plan.before, one);
    hand_on(count, plan.second, plan.later, other)
}

/// Two relays of one routine, each on two boards of its own and with two lists of calls of its own.
/// `k` and `l` hear the first relay, `m` and `n` the second. Where both accept the same first
/// words, the closed instants of those words are the same (`law`); that claims nothing where a
/// listener lost something, or a take over was accepted but that of the record. The routine is
/// given back with the marks that the second relay left.
pub fn relay_twice<
    A: Board,
    B: Board,
    C: Board,
    D: Board,
    K: Listener,
    L: Listener,
    M: Listener,
    N: Listener,
>(
    routine: Routine,
    plan: Plan<'_, A, B>,
    again: Plan<'_, C, D>,
    k: &mut K,
    l: &mut L,
    m: &mut M,
    n: &mut N,
) -> (Relayed<A, B>, Relayed<C, D>, Routine)
    ensures one { Relays A.present B.present
        (table_signals routine.table) (table_kinds routine.table)
        (map asked plan.entry.before.now) (map asked plan.entry.later.now)
        (K.ear k.old) (K.ear k.new) (L.ear l.old) (L.ear l.new) result.0 }
    ensures other { Relays C.present D.present
        (table_signals routine.table) (table_kinds routine.table)
        (map asked again.entry.before.now) (map asked again.entry.later.now)
        (M.ear m.old) (M.ear m.new) (N.ear n.old) (N.ear n.new) result.1 }
    ensures law { ObservedAlike (length (table_kinds routine.table))
        (K.ear k.old) (K.ear k.new) (L.ear l.old) (L.ear l.new)
        (M.ear m.old) (M.ear m.new) (N.ear n.old) (N.ear n.new) }
    ensures model { ObservedAsModel (table_signals routine.table) (table_kinds routine.table)
        (K.ear k.old) (K.ear k.new) (L.ear l.old) (L.ear l.new) }
    ensures other_model { ObservedAsModel (table_signals routine.table) (table_kinds routine.table)
        (M.ear m.old) (M.ear m.new) (N.ear n.old) (N.ear n.new) }
    ensures routine { LeftAs (table_signals routine.table) (table_kinds routine.table)
        (at_last (table_signals routine.table) (table_kinds routine.table)
        (map asked again.entry.before.now) (map asked again.entry.later.now)).marks result.2 }
{
    let (relayed, routine) = relay(routine, plan, k, l);
    let (once_more, routine) = relay(routine, again, m, n);
    (relayed, once_more, routine)
}

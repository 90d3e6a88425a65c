ghost use Rattle.std.specs.Prelude.{◌≡◌, ◌+◌, ◌*◌, ◌^◌, ◌<◌, ◌≤◌};
ghost use Rattle.signals.specs.Sets.{word_set};
ghost use Rattle.rules.specs.Rules.{apply};
ghost use Rattle.count.specs.Calls.{bit, IsWordOf};
ghost use Rattle.count.specs.Machine.{kind_effect};

use routine::Kind;
use signals::{Board, SIGNALS};

// Is bit s of the word set?
pub(crate) fn has_bit(word: u64, s: u8) -> bool
    requires { s < SIGNALS }
    ensures { result ≡ bit word s }
{
    (word >> s) & 1 == 1
}

// The word of the numbers below n of which `has` says yes.
pub(crate) fn word_of<F: Fn(usize) -> bool>(n: usize, has: F) -> u64
    requires few { n ≤ SIGNALS }
    requires asked { F.IsAlwaysCallable has }
    ensures { IsWordOf (F.post has) n result }
{
    (0..n)
        .rev()
        .fold(0, |word, s| word << 1 | u64::from(has(s)))
}

// How many bits there are up to the highest that is set.
pub(crate) fn width(word: u64) -> u8
    ensures short { result ≤ SIGNALS }
    ensures within { word < 2 ^ result }
    ensures highest { 2 ^ result ≤ 2 * word + 1 }
{
    (u64::BITS - word.leading_zeros()) as u8
}

// Leaves exactly the signals of the word present.
pub(crate) fn show<B: Board>(board: &mut B, word: u64)
    ensures { B.present board.new ≡ word_set word }
{
    board.wipe();
    // No `filter` before the loop: in generic code the prover refuses the iterator that it makes.
    for s in 0..width(word) {
        if has_bit(word, s) {
            board.raise(s);
        }
    }
}

// What the step of a statement of that kind does to the signals.
pub(crate) fn take_effect<B: Board>(board: &mut B, kind: Kind)
    ensures { B.present board.new ≡ apply (kind_effect kind) (B.present board.old) }
{
    match kind {
        Kind::Emit { signal } => board.raise(signal),
        Kind::Local { signal, .. } => board.lower(signal),
        _ => {}
    }
}

// The present signals of a board.
pub(crate) fn snapshot<B: Board>(board: &B) -> [bool; SIGNALS]
    ensures { result ≡ B.present board.now }
{
    std::array::from_fn(|s| board.ask(s as u8))
}

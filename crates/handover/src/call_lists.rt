ghost use Rattle.std.specs.Prelude.{◌≡◌, map, Some, None, IfOk, MatchOption, vec_items};
ghost use Rattle.relay.specs.Asked.{asked};
ghost use Rattle.handover.specs.CallLists.{pair, word, call_by, call_of, list_of};

use relay::Call;
use std::alloc::{AllocError, Global};

// A number of two bytes, the lowest first, and what follows it.
fn pair(bytes: &[u8]) -> Option<(u16, &[u8])>
    ensures { MatchOption result (pair bytes.now ≡ None)
        (λ p. pair bytes.now ≡ Some (p.0, p.1.now)) }
{
    let (number, rest) = bytes.split_first_chunk::<2>()?;
    Some((u16::from_le_bytes(*number), rest))
}

// A number of eight bytes, the lowest first, and what follows it.
fn word(bytes: &[u8]) -> Option<(u64, &[u8])>
    ensures { MatchOption result (word bytes.now ≡ None)
        (λ p. word bytes.now ≡ Some (p.0, p.1.now)) }
{
    let (number, rest) = bytes.split_first_chunk::<8>()?;
    Some((u64::from_le_bytes(*number), rest))
}

// The call of the kind that its first byte says, and what follows it.
fn call_by(kind: u8, rest: &[u8]) -> Option<(Call<'_>, &[u8])>
    ensures { MatchOption result (call_by kind rest.now ≡ None)
        (λ p. call_by kind rest.now ≡ Some (asked p.0, p.1.now)) }
{
    match kind {
        0 => {
            let (word, rest) = word(rest)?;
            Some((Call::Begin { word }, rest))
        }
        1 => {
            let (statement, rest) = pair(rest)?;
            let statement = usize::from(statement);
            Some((Call::Step { statement }, rest))
        }
        2 => Some((Call::Close, rest)),
        3 => {
            let (word, rest) = word(rest)?;
            Some((Call::React { word }, rest))
        }
        4 => {
            let (length, rest) = pair(rest)?;
            let (record, rest) = rest.split_at_checked(usize::from(length))?;
            Some((Call::TakeOver { record }, rest))
        }
        _ => None,
    }
}

// The first call, and what follows it.
#[tactic(auto, unfolding(crate::specs::CallLists::call_of))]
fn call(bytes: &[u8]) -> Option<(Call<'_>, &[u8])>
    ensures { MatchOption result (call_of bytes.now ≡ None)
        (λ p. call_of bytes.now ≡ Some (asked p.0, p.1.now)) }
{
    let (kind, rest) = bytes.split_first()?;
    call_by(*kind, rest)
}

// A list of calls, and what follows it. A call that is cut off or unknown ends the input.
pub(crate) fn list(heap: Global, bytes: &[u8]) -> Result<(Vec<Call<'_>>, &[u8]), AllocError>
    ensures { IfOk result (λ p. (map asked (vec_items p.0), p.1.now) ≡ list_of bytes.now) }
{
    let mut calls = Vec::new(heap);
    let Some((count, mut rest)) = pair(bytes) else {
        return Ok((calls, &[]));
    };
    for _ in 0..count {
        let Some((call, next)) = call(rest) else {
            return Ok((calls, &[]));
        };
        calls.push(call)?;
        rest = next;
    }
    Ok((calls, rest))
}

ghost use Rattle.std.specs.Prelude.{◌≡◌, ◌++◌, map, IfOk, OnOk, string_bytes};
ghost use Rattle.routine.specs.Refusals.{SaysOrMemory};
ghost use Rattle.routine.specs.View.{table_kinds, table_signals, load_of};
ghost use Rattle.input.specs.Input.{table_part, rest_part};
ghost use Rattle.input.specs.Printed.{said};
ghost use Rattle.relay.specs.Asked.{asked};
ghost use Rattle.handover.specs.Story.{verdict, one_way, other_way, both_text, same_text};
ghost use Rattle.handover.specs.Story.{lists_text, agreeing_text, story_of};
ghost use Rattle.handover.specs.Story.{SameWords, SameWordsIn, SaysSame};
ghost use Rattle.handover.specs.Transcript.{IsTranscript};

use crate::call_lists::list;
use crate::transcripts::{Transcript, transcribe_kept};
use input::{Printed, cut};
use relay::{Keeper, Plan, relay_twice};
use routine::{Refusal, Routine, load};
use signals::{BitBoard, Board, StampBoard};
use std::alloc::{AllocError, Global};

// The verdict: whether the lines of both relays' closed instants are the same.
#[tactic(auto, unfolding(crate::specs::Story::verdict))]
fn write_verdict(out: &mut String, same: bool) -> Result<(), AllocError>
    ensures { OnOk result (string_bytes out.new ≡ string_bytes out.old ++ verdict same) }
{
    if same {
        writeln!(out, "the same instants")
    } else {
        writeln!(out, "other instants")
    }
}

// The first relay, under its title.
#[tactic(auto, unfolding(crate::specs::Story::one_way))]
fn write_one_way(out: &mut String, transcript: &Transcript) -> Result<(), AllocError>
    ensures { OnOk result (string_bytes out.new
        ≡ string_bytes out.old ++ one_way (string_bytes transcript.now.text)) }
{
    writeln!(out, "from a bit board to a stamp board")?;
    write!(out, "{}", transcript.text)
}

// The second relay, under its title.
#[tactic(auto, unfolding(crate::specs::Story::other_way))]
fn write_other_way(out: &mut String, transcript: &Transcript) -> Result<(), AllocError>
    ensures { OnOk result (string_bytes out.new
        ≡ string_bytes out.old ++ other_way (string_bytes transcript.now.text)) }
{
    writeln!(out, "from a stamp board to a bit board")?;
    write!(out, "{}", transcript.text)
}

// Both relays, and the verdict.
fn write_both(out: &mut String, first: &Transcript, second: &Transcript) -> Result<(), AllocError>
    ensures { OnOk result (string_bytes out.new
        ≡ string_bytes out.old
        ++ both_text (string_bytes first.now.text) (string_bytes second.now.text)
        (same_text (string_bytes first.now.instants) (string_bytes second.now.instants))) }
{
    write_one_way(out, first)?;
    write_other_way(out, second)?;
    write_verdict(out, first.instants == second.instants)
}

// Two relays of a routine in writing.
#[derive(Debug, Drop)]
struct Transcripts {
    first: Transcript,
    second: Transcript,
}

// Makes two relays of the routine, by their plans, and writes both down.
fn transcribe_twice<A: Board + Drop, B: Board + Drop, C: Board + Drop, D: Board + Drop>(
    heap: Global,
    routine: Routine,
    plan: Plan<'_, A, B>,
    again: Plan<'_, C, D>,
) -> Result<Transcripts, AllocError>
    ensures first { IfOk result (λ t. IsTranscript
        (table_signals routine.table) (table_kinds routine.table)
        (map asked plan.entry.before.now) (map asked plan.entry.later.now) t.first) }
    ensures second { IfOk result (λ t. IsTranscript
        (table_signals routine.table) (table_kinds routine.table)
        (map asked again.entry.before.now) (map asked again.entry.later.now) t.second) }
    ensures same { IfOk result (λ t. SameWords
        (table_signals routine.table) (table_kinds routine.table)
        (map asked plan.entry.before.now) (map asked plan.entry.later.now)
        (map asked again.entry.before.now) (map asked again.entry.later.now)
        → string_bytes t.first.instants ≡ string_bytes t.second.instants) }
{
    let statements = routine.count();
    let mut k = Keeper::new(heap);
    let mut l = Keeper::new(heap);
    let mut m = Keeper::new(heap);
    let mut n = Keeper::new(heap);
    let (relayed, once_more, _) = relay_twice(routine, plan, again, &mut k, &mut l, &mut m, &mut n);
    let first = transcribe_kept(heap, statements, k, &relayed.handed, l)?;
    let second = transcribe_kept(heap, statements, m, &once_more.handed, n)?;
    Ok(Transcripts { first, second })
}

// Both relays by the four lists of the input, and the verdict.
#[tactic(auto, unfolding(crate::specs::Story::lists_text))]
fn write_relays(
    heap: Global,
    out: &mut String,
    routine: Routine,
    bytes: &[u8],
) -> Result<(), AllocError>
    ensures text { OnOk result (string_bytes out.new
        ≡ string_bytes out.old
        ++ lists_text (table_signals routine.table) (table_kinds routine.table) bytes.now) }
    ensures same { OnOk result
        (SameWordsIn (table_signals routine.table) (table_kinds routine.table) bytes.now
        → string_bytes out.new ≡ string_bytes out.old
        ++ agreeing_text (table_signals routine.table) (table_kinds routine.table) bytes.now) }
{
    let (before, rest) = list(heap, bytes)?;
    let (later, rest) = list(heap, rest)?;
    let (others, rest) = list(heap, rest)?;
    let (last, _) = list(heap, rest)?;
    let plan = Plan {
        first: BitBoard::new(),
        second: StampBoard::new(),
        before: &before,
        later: &later,
    };
    let again = Plan {
        first: StampBoard::new(),
        second: BitBoard::new(),
        before: &others,
        later: &last,
    };
    let transcripts = transcribe_twice(heap, routine, plan, again)?;
    write_both(out, &transcripts.first, &transcripts.second)?;
    Ok(())
}

/// What there is to print of the input's bytes: the refusal of the table, or two relays of its
/// routine and the verdict whether their closed instants are the same. A table that is no routine
/// is refused whatever memory there is; `Err` is want of memory.
pub fn story(heap: Global, bytes: &[u8]) -> Result<Printed, AllocError>
    ensures says { SaysOrMemory (story_of bytes.now) said result }
    ensures same { IfOk result (SaysSame (load_of (table_part bytes.now)) (rest_part bytes.now)) }
{
    let (table, lists) = cut(bytes);
    let routine = match load(heap, table) {
        Ok(routine) => routine,
        // Want of memory is no refusal of the table.
        Err(Refusal::Memory) => return Err(AllocError),
        Err(refusal) => return Ok(Printed::Refused { refusal }),
    };
    let mut text = String::new(heap);
    write_relays(heap, &mut text, routine, lists)?;
    Ok(Printed::Lines { text })
}

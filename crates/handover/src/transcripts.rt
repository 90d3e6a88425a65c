ghost use Rattle.std.specs.Prelude.{◌≡◌, [], ◌++◌, drop, false, map, IfOk, OnOk};
ghost use Rattle.std.specs.Prelude.{string_bytes, vec_items};
ghost use Rattle.std.specs.List.{flat_map};
ghost use Rattle.relay.specs.ClosedInstants.{closed_by, stepped_then};
ghost use Rattle.relay.specs.KeptEvents.{tells, ear_of};
ghost use Rattle.handover.specs.Story.{handed_text};
ghost use Rattle.handover.specs.RelayTexts.{transition_line, instant_line};
ghost use Rattle.handover.specs.Transcript.{WritesEvents, WritesRelay};

use crate::relay_texts::{write_bytes, write_event, write_instant};
use relay::{Event, Keeper};
use std::alloc::{AllocError, Global};

// A relay in writing, as it grows event by event.
#[derive(Debug, Drop)]
pub(crate) struct Transcript {
    // A line for each call, and the hand-over.
    pub(crate) text: String,
    // A line for each closed instant.
    pub(crate) instants: String,
    // The statements that were stepped in the instant that is open.
    stepped: Vec<usize>,
}

impl Transcript {
    // A transcript of no event.
    fn new(heap: Global) -> Transcript
        ensures text { string_bytes result.text ≡ [] }
        ensures instants { string_bytes result.instants ≡ [] }
        ensures stepped { vec_items result.stepped ≡ [] }
    {
        Transcript {
            text: String::new(heap),
            instants: String::new(heap),
            stepped: Vec::new(heap),
        }
    }

    // The line of a call.
    fn write_line(&mut self, event: &Event) -> Result<(), AllocError>
        ensures text { OnOk result
            (string_bytes self.new.text
            ≡ string_bytes self.old.text
            ++ transition_line (vec_items self.old.stepped) (tells event.now)) }
        ensures instants { self.new.instants ≡ self.old.instants }
        ensures stepped { self.new.stepped ≡ self.old.stepped }
    {
        write_event(&mut self.text, &self.stepped, event)?;
        writeln!(self.text)
    }

    // The line of the instant that the event closed, if it closed one.
    fn write_closed(&mut self, statements: usize, event: &Event) -> Result<(), AllocError>
        ensures instants { OnOk result
            (string_bytes self.new.instants
            ≡ string_bytes self.old.instants
            ++ flat_map instant_line
            (closed_by statements (vec_items self.old.stepped) (tells event.now))) }
        ensures text { self.new.text ≡ self.old.text }
        ensures stepped { self.new.stepped ≡ self.old.stepped }
    {
        match event {
            Event::Closed { closing, marks } => write_instant(
                &mut self.instants,
                statements,
                closing,
                marks,
                &self.stepped,
            ),
            Event::Reacted {
                closing,
                marks,
                stepped,
                ..
            } => write_instant(&mut self.instants, statements, closing, marks, stepped),
            _ => Ok(()),
        }
    }

    // Brings `stepped` to what was stepped in the open instant after the event.
    fn follow(&mut self, event: &Event) -> Result<(), AllocError>
        ensures stepped { OnOk result
            (vec_items self.new.stepped
            ≡ stepped_then (vec_items self.old.stepped) (tells event.now)) }
        ensures text { self.new.text ≡ self.old.text }
        ensures instants { self.new.instants ≡ self.old.instants }
    {
        match event {
            Event::Stepped { statement } => self.stepped.push(*statement)?,
            Event::Refused { .. } => {}
            Event::Begun { .. } | Event::Closed { .. } | Event::Reacted { .. } | Event::TakenOver =>
                self.stepped.clear(),
        }
        Ok(())
    }

    // An event of a routine with so many statements.
    fn write(&mut self, statements: usize, event: &Event) -> Result<(), AllocError>
        ensures text { OnOk result
            (string_bytes self.new.text
            ≡ string_bytes self.old.text
            ++ transition_line (vec_items self.old.stepped) (tells event.now)) }
        ensures instants { OnOk result
            (string_bytes self.new.instants
            ≡ string_bytes self.old.instants
            ++ flat_map instant_line
            (closed_by statements (vec_items self.old.stepped) (tells event.now))) }
        ensures stepped { OnOk result
            (vec_items self.new.stepped
            ≡ stepped_then (vec_items self.old.stepped) (tells event.now)) }
    {
        self.write_line(event)?;
        self.write_closed(statements, event)?;
        self.follow(event)
    }

    // The events, one after another.
    fn write_all(&mut self, statements: usize, events: &[Event]) -> Result<(), AllocError>
        ensures { OnOk result (WritesEvents statements self.old self.new (map tells events.now)) }
    {
        for event in events {
            self.write(statements, event)?;
        }
        Ok(())
    }
}

// The record that was handed over, and that it was taken over.
#[tactic(auto, unfolding(crate::specs::Story::handed_text))]
fn write_handed(out: &mut String, handed: &[u8]) -> Result<(), AllocError>
    ensures { OnOk result (string_bytes out.new ≡ string_bytes out.old ++ handed_text handed.now) }
{
    write!(out, "hand over ")?;
    write_bytes(out, handed)?;
    writeln!(out)?;
    writeln!(out, "taken over")
}

// A line for each call on the first board, the hand-over, and a line for each call on the second.
fn transcribe(
    heap: Global,
    statements: usize,
    before: &[Event],
    handed: &[u8],
    later: &[Event],
) -> Result<Transcript, AllocError>
    ensures { IfOk result (WritesRelay statements (map tells before.now) handed.now
        (map tells later.now)) }
{
    let mut transcript = Transcript::new(heap);
    transcript.write_all(statements, before)?;
    write_handed(&mut transcript.text, handed)?;
    transcript.write_all(statements, later)?;
    Ok(transcript)
}

// The same of what was kept on both boards. What is heard first on the second board is that the
// record was taken over.
pub(crate) fn transcribe_kept(
    heap: Global,
    statements: usize,
    one: Keeper,
    handed: &[u8],
    other: Keeper,
) -> Result<Transcript, AllocError>
    ensures writes { IfOk result
        (WritesRelay statements (ear_of one).heard handed.now (drop 1 (ear_of other).heard)) }
    ensures one { IfOk result (λ _. (ear_of one).lost ≡ false) }
    ensures other { IfOk result (λ _. (ear_of other).lost ≡ false) }
{
    let before = one.events()?;
    let later = other.events()?;
    let later = match later.split_first() {
        Some((_, later)) => later,
        None => &[],
    };
    transcribe(heap, statements, &before, handed, later)
}

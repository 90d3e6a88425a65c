ghost use Rattle.std.specs.Prelude.{◌≡◌, IfOk, IfErr, map, vec_items, true, false, [], ◌∷◌};
ghost use Rattle.routine.specs.Kinds.{marks};
ghost use Rattle.relay.specs.Heard.{Grows, hears};
ghost use Rattle.relay.specs.KeptEvents.{tells, ear_of};

use crate::events::Event;
use crate::listeners::Listener;
use crate::news::News;
use routine::{Mark, Statement};
use std::alloc::{AllocError, Global};

/// A listener that keeps all that it hears, as long as there is memory.
#[derive(Debug, Drop)]
pub struct Keeper {
    heap: Global,
    events: Vec<Event>,
    // Something could not be kept for want of memory.
    lost: bool,
}

// The marks of the statements.
fn marks_of(heap: Global, statements: &[Statement]) -> Result<Vec<Mark>, AllocError>
    ensures { IfOk result (λ ms. vec_items ms ≡ marks statements.now) }
{
    statements.iter().map(|row| row.mark).collect(heap)
}

// What was heard, as it is kept.
fn event(heap: Global, news: News<'_>) -> Result<Event, AllocError>
    ensures { IfOk result (λ e. tells e ≡ hears news.entry) }
{
    Ok(match news {
        News::Begun { word } => Event::Begun { word },
        News::Stepped { statement } => Event::Stepped { statement },
        News::Closed {
            closing,
            statements,
        } => Event::Closed {
            closing,
            marks: marks_of(heap, statements)?,
        },
        News::Reacted {
            word,
            closing,
            statements,
            stepped,
        } => Event::Reacted {
            word,
            closing,
            marks: marks_of(heap, statements)?,
            stepped: stepped.to_vec(heap)?,
        },
        News::TakenOver => Event::TakenOver,
        News::Refused { refusal } => Event::Refused { refusal },
    })
}

impl Keeper {
    /// A keeper that has heard nothing, and takes its memory from `heap`.
    pub fn new(heap: Global) -> Keeper
        ensures { ear_of result ≡ record { heard = []; lost = false } }
    {
        Keeper {
            heap,
            events: Vec::new(heap),
            lost: false,
        }
    }

    // Keeps what was heard; `Err` is want of memory.
    fn keep(&mut self, news: News<'_>) -> Result<(), AllocError>
        ensures grows { IfOk result
            (λ _. Grows (ear_of self.old) (ear_of self.new) (hears news.entry ∷ [])) }
    {
        self.events.push(event(self.heap, news)?)?;
        Ok(())
    }

    /// All that it heard, in its order, or `AllocError` where something of it was lost.
    pub fn events(self) -> Result<Vec<Event>, AllocError>
        ensures all { IfOk result
            (λ es. ear_of self ≡ record { heard = map tells (vec_items es); lost = false }) }
        ensures lost { IfErr result (λ _. (ear_of self).lost ≡ true) }
    {
        if self.lost {
            return Err(AllocError);
        }
        Ok(self.events)
    }
}

impl Listener for Keeper {
    ghost ear = { ear_of };

    fn hear(&mut self, news: News<'_>) {
        if self.keep(news).is_err() {
            self.lost = true;
        }
    }
}

ghost use Rattle.std.specs.Prelude.{map};
ghost use Rattle.relay.specs.Asked.{asked, begin, step, close, react, take_over};
ghost use Rattle.relay.specs.Heard.{Tells, TellsAll};

use crate::call::Call;
use crate::listeners::Listener;
use crate::news::News;
use count::{Count, StepRow};
use signals::Board;

// This function and the four below it each make one call on the count and tell the listener what
// it came to.
fn begin<B: Board, L: Listener>(count: &mut Count<B>, word: u64, listener: &mut L)
    ensures { Tells B.present count.old count.new (begin word)
        (L.ear listener.old) (L.ear listener.new) }
{
    match count.begin(word) {
        Ok(()) => listener.hear(News::Begun { word }),
        Err(refusal) => listener.hear(News::Refused { refusal }),
    }
}

fn step<B: Board, L: Listener>(count: &mut Count<B>, statement: usize, listener: &mut L)
    ensures { Tells B.present count.old count.new (step statement)
        (L.ear listener.old) (L.ear listener.new) }
{
    match count.step(statement) {
        Ok(()) => listener.hear(News::Stepped { statement }),
        Err(refusal) => listener.hear(News::Refused { refusal }),
    }
}

fn close<B: Board, L: Listener>(count: &mut Count<B>, listener: &mut L)
    ensures { Tells B.present count.old count.new close (L.ear listener.old) (L.ear listener.new) }
{
    match count.close() {
        Ok(closing) => listener.hear(News::Closed {
            closing,
            statements: count.rows(),
        }),
        Err(refusal) => listener.hear(News::Refused { refusal }),
    }
}

fn react<B: Board, L: Listener>(count: &mut Count<B>, word: u64, listener: &mut L)
    ensures { Tells B.present count.old count.new (react word)
        (L.ear listener.old) (L.ear listener.new) }
{
    let mut row = StepRow::new();
    match count.react_traced(word, &mut row) {
        Ok(closing) => listener.hear(News::Reacted {
            word,
            closing,
            statements: count.rows(),
            stepped: row.steps(),
        }),
        Err(refusal) => listener.hear(News::Refused { refusal }),
    }
}

fn take_over<B: Board, L: Listener>(count: &mut Count<B>, handed: &[u8], listener: &mut L)
    ensures { Tells B.present count.old count.new (take_over handed.now)
        (L.ear listener.old) (L.ear listener.new) }
{
    match count.take_over(handed) {
        Ok(()) => listener.hear(News::TakenOver),
        Err(refusal) => listener.hear(News::Refused { refusal }),
    }
}

// Carries out a call, and tells the listener what it came to.
fn carry_out<B: Board, L: Listener>(count: &mut Count<B>, call: &Call<'_>, listener: &mut L)
    ensures { Tells B.present count.old count.new (asked call.now)
        (L.ear listener.old) (L.ear listener.new) }
{
    match call {
        Call::Begin { word } => begin(count, *word, listener),
        Call::Step { statement } => step(count, *statement, listener),
        Call::Close => close(count, listener),
        Call::React { word } => react(count, *word, listener),
        Call::TakeOver { record } => take_over(count, record, listener),
    }
}

/// Carries out the calls, one after another, and tells the listener what each came to. A refused
/// call changes nothing, and the next one follows. Nothing is allocated.
pub fn carry_out_all<B: Board, L: Listener>(
    count: &mut Count<B>,
    calls: &[Call<'_>],
    listener: &mut L,
)
    ensures { TellsAll B.present count.old count.new (map asked calls.now)
        (L.ear listener.old) (L.ear listener.new) }
{
    for call in calls {
        carry_out(count, call, listener);
    }
}

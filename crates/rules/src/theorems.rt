// The theorems of the rules. Each function but `most_steps` computes nothing: its contract is the
// theorem, of the routine that it is lent.
ghost use Rattle.std.specs.Prelude.{◌≡◌, ◌*◌, length};
ghost use Rattle.routine.specs.View.{table_signals, table_kinds};
ghost use Rattle.rules.specs.Theorems.{Checked, NothingReadyInside, EitherOrder, OrderNeverShows};
ghost use Rattle.rules.specs.Theorems.{InstantEnds, StepsAddUp, SameOutcome, MarksStayLegal};
ghost use Rattle.rules.specs.Theorems.{TakesTime, LowestByRule};

use routine::Routine;

/// Inside a statement that is over nothing is ready, and ready statements do not lie inside one
/// another.
pub fn nothing_ready_inside(routine: &Routine)
    ensures { NothingReadyInside (table_signals routine.now.table) (table_kinds routine.now.table) }
{}

/// Two ready statements can be stepped in either order with the same result.
pub fn either_order(routine: &Routine)
    ensures { EitherOrder (table_signals routine.now.table) (table_kinds routine.now.table) }
{}

/// However an instant is stepped until nothing is ready, it ends as the plain model does: in the
/// same marks and the same set, with each statement stepped equally often. So what the instant
/// comes to is what the model says.
pub fn order_never_shows(routine: &Routine)
    ensures outcome { SameOutcome (table_signals routine.now.table)
        (table_kinds routine.now.table) }
    ensures order { OrderNeverShows (table_signals routine.now.table)
        (table_kinds routine.now.table) }
{}

/// No instant has more steps than this: 4 for each statement. After so many nothing is ready in the
/// model, and the steps that it counts are the sum of how often it stepped each statement.
pub fn most_steps(routine: &Routine) -> usize
    ensures value { result ≡ 4 * length (table_kinds routine.now.table) }
    ensures sums { StepsAddUp (table_signals routine.now.table) (table_kinds routine.now.table) }
    ensures ends { InstantEnds (table_signals routine.now.table) (table_kinds routine.now.table) }
{
    4 * routine.count()
}

/// What cannot end at once is not over in the instant in which it is begun.
pub fn takes_time(routine: &Routine)
    ensures { TakesTime (table_signals routine.now.table) (table_kinds routine.now.table) }
{}

/// The marks at the start are legal, and begin, step and the end of the instant keep them so.
pub fn marks_stay_legal(routine: &Routine)
    ensures { MarksStayLegal (table_signals routine.now.table) (table_kinds routine.now.table) }
{}

/// The lowest statement whose own rule applies is the lowest ready one, and no rule applies exactly
/// if none is ready.
pub fn lowest_by_rule(routine: &Routine)
    ensures { LowestByRule (table_signals routine.now.table) (table_kinds routine.now.table) }
{}

ghost use Rattle.std.specs.Prelude.{◌≡◌};
ghost use Rattle.record.specs.Record.{mark_byte};
ghost use Rattle.record.specs.Taking.{mark_in, counted};

use routine::Mark;

// How a record writes a mark.
pub(crate) fn byte(mark: Mark) -> u8
    ensures { result ≡ mark_byte mark }
{
    match mark {
        Mark::Idle => 0,
        Mark::Waiting => 1,
        Mark::UnderWay => 2,
        Mark::Done => 3,
    }
}

// The mark that a record writes so.
pub(crate) fn from_byte(byte: u8) -> Option<Mark>
    ensures { result ≡ mark_in byte }
{
    match byte {
        0 => Some(Mark::Idle),
        1 => Some(Mark::Waiting),
        2 => Some(Mark::UnderWay),
        3 => Some(Mark::Done),
        _ => None,
    }
}

// What it is to the rules of other statements: no mark counts as a live one.
pub(crate) fn counted(mark: Option<Mark>) -> Mark
    ensures { result ≡ counted mark }
{
    mark.unwrap_or(Mark::UnderWay)
}

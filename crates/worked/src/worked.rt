ghost use Rattle.std.specs.Prelude.{◌≡◌, All, Some};
ghost use Rattle.worked.specs.SummaryText.{summary_text};
ghost use Rattle.worked.specs.Examples.{Holds, lines};
ghost use Rattle.worked.specs.Worked.{examples, unprinted};

use rules::Status;
use std::fmt;

/// What one instant of a worked routine comes to.
#[derive(Clone, Copy, Debug, PartialEq, Eq)]
pub struct Summary {
    /// The number of the routine, from 1 on.
    pub routine: u8,
    /// The number of the instant, from 1 on.
    pub instant: u8,
    /// Bit s of the word: output s is present.
    pub outputs: u64,
    /// Whether the routine goes on or is over.
    pub status: Status,
    /// How many steps the instant had.
    pub steps: u16,
}

/// The routine, the instant, the output word in sixteen hexadecimal digits, the status, the steps.
impl fmt::Display for Summary {
    ghost output = { λ s. Some (summary_text s) };

    fn fmt<W: fmt::Write>(&self, f: &mut fmt::Formatter<W>) -> fmt::Result {
        let Summary {
            routine,
            instant,
            outputs,
            status,
            steps,
        } = *self;
        write!(f, "{routine} {instant} {outputs:016x} {status} {steps}")
    }
}

/// What the plain model makes of the words of the worked routines, instant by instant (`lines`).
/// All that is claimed of these routines holds (`claims`), and of one of them that is numbered in
/// another way (`unprinted`).
pub fn worked_routines() -> [Summary; 15]
    ensures lines { result ≡ lines examples }
    ensures claims { All Holds examples }
    ensures unprinted { All Holds unprinted }
{
    [
        Summary {
            routine: 1,
            instant: 1,
            outputs: 0,
            status: Status::Terminated,
            steps: 0,
        },
        Summary {
            routine: 2,
            instant: 1,
            outputs: 0,
            status: Status::Suspended,
            steps: 0,
        },
        Summary {
            routine: 2,
            instant: 2,
            outputs: 0,
            status: Status::Terminated,
            steps: 0,
        },
        Summary {
            routine: 3,
            instant: 1,
            outputs: 7,
            status: Status::Terminated,
            steps: 6,
        },
        Summary {
            routine: 4,
            instant: 1,
            outputs: 0,
            status: Status::Suspended,
            steps: 1,
        },
        Summary {
            routine: 4,
            instant: 2,
            outputs: 0,
            status: Status::Terminated,
            steps: 3,
        },
        Summary {
            routine: 5,
            instant: 1,
            outputs: 0,
            status: Status::Suspended,
            steps: 1,
        },
        Summary {
            routine: 5,
            instant: 2,
            outputs: 0,
            status: Status::Suspended,
            steps: 2,
        },
        Summary {
            routine: 5,
            instant: 3,
            outputs: 2,
            status: Status::Terminated,
            steps: 2,
        },
        Summary {
            routine: 6,
            instant: 1,
            outputs: 0,
            status: Status::Terminated,
            steps: 1,
        },
        Summary {
            routine: 7,
            instant: 1,
            outputs: 0,
            status: Status::Suspended,
            steps: 2,
        },
        Summary {
            routine: 7,
            instant: 2,
            outputs: 0,
            status: Status::Suspended,
            steps: 2,
        },
        Summary {
            routine: 7,
            instant: 3,
            outputs: 0,
            status: Status::Suspended,
            steps: 7,
        },
        Summary {
            routine: 7,
            instant: 4,
            outputs: 0,
            status: Status::Suspended,
            steps: 2,
        },
        Summary {
            routine: 8,
            instant: 1,
            outputs: 1,
            status: Status::Terminated,
            steps: 2,
        },
    ]
}

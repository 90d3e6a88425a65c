ghost use Rattle.routine.specs.Refusals.{AnswersOrMemory};
ghost use Rattle.routine.specs.View.{load_of, routine_content};

use crate::checked::Routine;
use crate::reader::read_draft;
use crate::refusals::Refusal;
use std::alloc::Global;

/// The routine that the bytes say, read and checked, or the first refusal that applies: one of
/// `read`, then one of `check`. `Memory` comes only where the bytes are a routine.
pub fn load(heap: Global, bytes: &[u8]) -> Result<Routine, Refusal>
    ensures { AnswersOrMemory (load_of bytes.now) routine_content result }
{
    let draft = read_draft(bytes)?;
    if let Some(refusal) = draft.rows().fault() {
        return Err(refusal);
    }
    let table = draft.table(heap)?;
    Ok(Routine { table })
}

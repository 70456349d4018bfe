// What the call `plan` answers: its checks in their order, and the reply of a routine that was read (document 01, "Who can cause a refusal").
#![tactic(auto)]

ghost use Rattle.std.specs.Prelude.{◌≡◌, ◌<◌, length};
ghost use Rattle.labels.specs.Checks.{programmer_check};
ghost use Rattle.passes.specs.Tables.{Versions};
ghost use Rattle.planned.specs.Calls.{Replied};
ghost use Rattle.routine.specs.Layout.{vertices};

use labels::read::Routine;
use planbytes::contents;
use refusal::Refusal;
use sets::Set;

// The reply, with a buffer of `size` bytes: 20 and 21 as they were answered, then 1. Fills in the index of each vertex's first label.
pub fn reply(
    routine: &Routine,
    size: usize,
    checked: Result<(), Refusal>,
    versions: &[Set],
    firsts: &mut [u16],
) -> Result<usize, Refusal>
    requires is_checked { checked ≡ programmer_check routine.now.bytes }
    requires versions { Versions routine.now.bytes versions.now }
    requires firsts_room { vertices routine.now.bytes < length firsts.old }
    ensures { Replied routine.now.bytes size result firsts.new }
{
    checked?;
    let count = contents::label_count(routine, versions, firsts);
    let needed = contents::plan_length(routine.header(), count);
    if size < needed {
        return Err(Refusal::ShortPlanBuffer { needed });
    }
    Ok(needed)
}

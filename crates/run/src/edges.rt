// How many edges the routine has that is run: as many counts end a report (document 02, request 8).
ghost use Rattle.std.specs.Prelude.{◌≡◌, length};
ghost use Rattle.calls.specs.Checks.{calls_check, CallsRead};
ghost use Rattle.calls.specs.Expanded.{routine_of};
ghost use Rattle.routine.specs.Layout.{edges};
ghost use Rattle.routine.specs.Reader.{read_check};

use calls::scan;
use labels::read::Routine;
use routine::reader;

// Those of the routine that a file with calls expands to, which `work` is for; 0 where it is refused.
fn of_expanded(routine: &Routine, work: &mut [u8]) -> usize
    requires calls_read { CallsRead routine.now.bytes }
    requires work_len { length work.old ≡ 6866 }
    ensures { calls_check routine.now.bytes ≡ Ok tt → result ≡ edges (routine_of routine.now.bytes) }
{
    let expanded = expansion::expand(routine, work);
    expanded.answer.map_or(0, |e| e.edges)
}

// The same with bytes for any expanded routine.
fn of_calls(routine: &Routine) -> usize
    requires { CallsRead routine.now.bytes }
    ensures { calls_check routine.now.bytes ≡ Ok tt → result ≡ edges (routine_of routine.now.bytes) }
{
    let mut work = [0u8; 6866];
    of_expanded(routine, &mut work)
}

// Those of the routine in `file`, its calls expanded; 0 where it is refused.
pub fn of(file: &[u8]) -> usize
    ensures { read_check file.now ≡ Ok tt → calls_check file.now ≡ Ok tt → result ≡ edges (routine_of file.now) }
{
    let Ok(header) = reader::read(file) else {
        return 0;
    };
    let routine = Routine::new(file, header);
    if scan::any(&routine) {
        return of_calls(&routine);
    }
    routine.edges()
}

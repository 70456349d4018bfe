// Which vertices are calls, and which vertices they become (document 02, request 3).
ghost use Rattle.std.specs.Prelude.{◌≡◌, ◌+◌, ◌≤◌, ◌<◌, length, get_or};
ghost use Rattle.calls.specs.Calls.{is_call_row, has_calls};
ghost use Rattle.calls.specs.Parts.{parts_of, expanded_vertices};
ghost use Rattle.calls.specs.Writing.{Firsts};
ghost use Rattle.routine.specs.Actions.{is_call};
ghost use Rattle.routine.specs.Layout.{vertices};
ghost use Rattle.words.specs.Sums.{any_below};

use labels::read::Routine;
use routine::action;

// Whether one of the n bytes from `at` on is a call's. It looks at all of them: a loop without a branch can be one of vectors.
fn any_from(file: &[u8], at: usize, n: usize) -> bool
    requires { at + n ≤ length file.now }
    ensures { result ≡ any_below (λ i. is_call (get_or file.now (at + i) 0)) n }
{
    let mut any = false;
    for i in 0..n {
        any = any | action::is_call(file[at + i]);
    }
    any
}

// Whether the file has calls.
pub fn any(routine: &Routine) -> bool
    ensures { result ≡ has_calls routine.now.bytes }
{
    let h = routine.header();
    any_from(routine.bytes(), h.actions_at(), h.vertices * h.arrays)
}

// Whether vertex v is a call.
fn is_call_row(routine: &Routine, v: usize) -> bool
    requires { v < vertices routine.now.bytes }
    ensures { result ≡ is_call_row routine.now.bytes v }
{
    any_from(routine.row(v), 0, routine.arrays())
}

// How many vertices v becomes.
fn size(routine: &Routine, v: usize) -> usize
    requires { v < vertices routine.now.bytes }
    ensures { result ≡ length (parts_of routine.now.bytes v) }
{
    let call = is_call_row(routine, v);
    if call {
        return 3;
    }
    1
}

// Fills in the first of the vertices that each vertex becomes, and behind the last how many there are, which it returns.
pub fn fill_firsts(routine: &Routine, firsts: &mut [u16]) -> usize
    requires { vertices routine.now.bytes < length firsts.old }
    ensures firsts { Firsts routine.now.bytes firsts.new }
    ensures value { result ≡ expanded_vertices routine.now.bytes }
{
    let n = routine.vertices();
    let mut count: usize = 0;
    for v in 0..n {
        firsts[v] = count as u16;
        count += size(routine, v);
    }
    firsts[n] = count as u16;
    count
}

// The path: 16-bit vertices, an odd last byte ignored; refusals 30 to 32 (document 01, "Who can cause a refusal"), and how often each edge is
// passed (document 02, request 8).
#![tactic(auto)]

pub mod edges;

ghost use Rattle.std.specs.Prelude.{◌≡◌, ◌+◌, ◌≤◌, ◌<◌, replicate};
ghost use Rattle.routine.specs.Layout.{edges};
ghost use Rattle.path.specs.Passes.{passes_up_to, passes_of};
ghost use Rattle.path.specs.Paths.{steps, vertex_at, check30, check31, arrival_check, check32, path_check};
ghost use Rattle.path.specs.Places.{Starts};
ghost use Rattle.words.specs.Tables.{table};

use labels::read::Routine;
use refusal::Refusal;
use routine::header::Header;

// The longest path.
pub const MAX: usize = 4096;

// How many vertices the path has.
pub fn count(path: &[u8]) -> usize
    ensures { result ≡ steps path.now }
{
    path.len() / 2
}

// The vertex at index i.
pub fn vertex(path: &[u8], i: usize) -> usize
    requires { i < steps path.now }
    ensures { result ≡ vertex_at path.now i }
{
    words::at(path, 2 * i)
}

// Refusal 30.
fn check_length(path: &[u8]) -> Result<(), Refusal>
    ensures { result ≡ check30 path.now }
{
    let length = count(path);
    if length < 1 {
        return Err(Refusal::PathLengthOutsideLimits { length });
    }
    if length > MAX {
        return Err(Refusal::PathLengthOutsideLimits { length });
    }
    Ok(())
}

// Refusal 31.
fn check_start(path: &[u8]) -> Result<(), Refusal>
    requires { 0 < steps path.now }
    ensures { result ≡ check31 path.now }
{
    let first = vertex(path, 0);
    if first != 0 {
        return Err(Refusal::WrongStart);
    }
    Ok(())
}

// Whether an edge leads on from the vertex at index i; it is counted in `taken`.
fn pass(
    routine: &Routine,
    starts: &[u16],
    path: &[u8],
    i: usize,
    taken: &mut [u16],
) -> Result<(), Refusal>
    requires starts { Starts routine.now.bytes starts.now }
    requires i_bound { (i + 1 < steps path.now) × (i < 4096) }
    requires taken_value { taken.old ≡ table (passes_up_to routine.now.bytes path.now i) (edges routine.now.bytes) }
    ensures value { result ≡ arrival_check routine.now.bytes path.now (i + 1) }
    ensures taken_after { result ≡ Ok tt → taken.new ≡ table (passes_up_to routine.now.bytes path.now (i + 1)) (edges routine.now.bytes) }
{
    let next = i + 1;
    let found = edges::find(routine, starts, vertex(path, i), vertex(path, next));
    let place = found.ok_or(Refusal::NoSuchEdge { index: next })?;
    taken[place] += 1;
    Ok(())
}

// Refusal 32, with where the edges from each vertex start.
fn check_arrivals_by(
    routine: &Routine,
    starts: &[u16],
    path: &[u8],
    taken: &mut [u16],
) -> Result<(), Refusal>
    requires starts { Starts routine.now.bytes starts.now }
    requires path_nonzero { (0 < steps path.now) × (steps path.now ≤ 4096) }
    requires taken_value { taken.old ≡ replicate (edges routine.now.bytes) 0 }
    ensures value { result ≡ check32 routine.now.bytes path.now }
    ensures taken_after { result ≡ Ok tt → taken.new ≡ table (passes_of routine.now.bytes path.now) (edges routine.now.bytes) }
{
    for i in 0..count(path) - 1 {
        pass(routine, starts, path, i, taken)?;
    }
    Ok(())
}

// Refusal 32.
fn check_arrivals(routine: &Routine, path: &[u8], taken: &mut [u16]) -> Result<(), Refusal>
    requires path_nonzero { (0 < steps path.now) × (steps path.now ≤ 4096) }
    requires taken_value { taken.old ≡ replicate (edges routine.now.bytes) 0 }
    ensures value { result ≡ check32 routine.now.bytes path.now }
    ensures taken_after { result ≡ Ok tt → taken.new ≡ table (passes_of routine.now.bytes path.now) (edges routine.now.bytes) }
{
    let mut starts = [0u16; Header::MAX_VERTICES + 1];
    edges::fill_starts(routine, &mut starts);
    check_arrivals_by(routine, &starts, path, taken)
}

// Refusals 30 to 32. Where they pass, `taken`, which holds a zero for each edge, is left with how often the path passes each edge.
pub fn check(routine: &Routine, path: &[u8], taken: &mut [u16]) -> Result<(), Refusal>
    requires taken_value { taken.old ≡ replicate (edges routine.now.bytes) 0 }
    ensures value { result ≡ path_check routine.now.bytes path.now }
    ensures taken_after { result ≡ Ok tt → taken.new ≡ table (passes_of routine.now.bytes path.now) (edges routine.now.bytes) }
{
    check_length(path)?;
    check_start(path)?;
    check_arrivals(routine, path, taken)
}

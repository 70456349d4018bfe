// The call `run` of document 01: a path through a routine, checked and run, and its report.
#![tactic(auto)]

pub mod edges;

ghost use Rattle.std.specs.Prelude.{◌≡◌, ◌+◌, ◌*◌, ◌≤◌, length, replicate};
ghost use Rattle.calls.specs.Checks.{CallsRead};
ghost use Rattle.calls.specs.Expanded.{expanded_edges, expanded};
ghost use Rattle.calls.specs.Parts.{expanded_vertices};
ghost use Rattle.calls.specs.Writing.{Firsts};
ghost use Rattle.labels.specs.Checks.{programmer_check};
ghost use Rattle.routine.specs.Layout.{vertices, edges};
ghost use Rattle.refusal.specs.Replies.{written};
ghost use Rattle.run.specs.Calls.{Ran, runner_check, Taken, RanRead};
ghost use Rattle.walk.specs.Report.{report_length};

use calls::scan;
use checks::Tables;
use labels::read::Routine;
use passes::tables;
use refusal::Refusal;
use routine::reader;
use sets::{Half, Set};

// The reply, with a buffer of `size` bytes: 20 and 21 as they were answered, then 30 to 32, then 2. `counts` is a work slice. `taken`, which
// holds a zero for each edge, is left with how often the path passes it if nothing is refused.
fn reply(
    routine: &Routine,
    path: &[u8],
    size: usize,
    checked: Result<(), Refusal>,
    counts: &mut [u8],
    taken: &mut [u16],
) -> Result<usize, Refusal>
    requires is_checked { checked ≡ programmer_check routine.now.bytes }
    requires counts_len { length counts.old ≡ vertices routine.now.bytes }
    requires none_taken { taken.old ≡ replicate (edges routine.now.bytes) 0 }
    ensures value { result ≡ written (runner_check routine.now.bytes path.now size) (report_length routine.now.bytes path.now) }
    ensures taken { Taken result routine.now.bytes path.now taken.new }
{
    checked?;
    path::check(routine, path, taken)?;
    let needed = walk::length(routine, path, counts);
    if size < needed {
        return Err(Refusal::ShortReportBuffer { needed });
    }
    Ok(needed)
}

// Runs a path through a routine that was read. `order` and `taken` hold an entry for each edge, `counts` one for each vertex, the other tables
// eight for each vertex.
fn run_with(
    routine: &Routine,
    path: &[u8],
    out: &mut [u8],
    order: &mut [u16],
    versions: &mut [Set],
    uses: &mut [Half],
    letters: &mut [u8],
    kept: &mut [Set],
    counts: &mut [u8],
    gives: &mut [Half],
    passes: &mut [Half],
    halves: &mut [Half],
    taken: &mut [u16],
) -> Result<usize, Refusal>
    requires order_len { length order.old ≡ edges routine.now.bytes }
    requires versions_len { length versions.old ≡ 8 * vertices routine.now.bytes }
    requires uses_len { length uses.old ≡ 8 * vertices routine.now.bytes }
    requires letters_len { length letters.old ≡ 8 * vertices routine.now.bytes }
    requires kept_len { length kept.old ≡ 8 * vertices routine.now.bytes }
    requires counts_len { length counts.old ≡ vertices routine.now.bytes }
    requires gives_len { length gives.old ≡ 8 * vertices routine.now.bytes }
    requires passes_len { length passes.old ≡ 8 * vertices routine.now.bytes }
    requires halves_len { length halves.old ≡ 8 * vertices routine.now.bytes }
    requires none_taken { taken.old ≡ replicate (edges routine.now.bytes) 0 }
    ensures { RanRead routine.now.bytes path.now out.old result out.new }
{
    // here `kept` holds the reaching sets
    let checked = checks::prepare(
        routine, order, versions, uses, letters, kept, gives, passes, halves,
    );
    let verdict = checked.verdict;
    let size = reply(routine, path, out.len(), verdict, counts, taken)?;
    tables::kept(
        routine, order, versions, letters, kept, gives, passes, halves,
    );
    walk::write(routine, path, letters, kept, taken, size, out);
    Ok(size)
}

// The same with tables that are large enough.
fn run_within<const CELLS: usize, const EDGES: usize>(
    routine: &Routine,
    path: &[u8],
    out: &mut [u8],
    tables: &mut Tables<CELLS, EDGES>,
    counts: &mut [u8],
    taken: &mut [u16; EDGES],
) -> Result<usize, Refusal>
    requires edges_room { edges routine.now.bytes ≤ EDGES }
    requires cells_room { 8 * vertices routine.now.bytes ≤ CELLS }
    requires counts_room { vertices routine.now.bytes ≤ length counts.old }
    requires none_taken { taken.old ≡ replicate EDGES 0 }
    ensures { RanRead routine.now.bytes path.now out.old result out.new }
{
    let e = routine.edges();
    let n = routine.vertices();
    let all = flow::COLUMNS * n;
    run_with(
        routine,
        path,
        out,
        &mut tables.order[..e],
        &mut tables.versions[..all],
        &mut tables.uses[..all],
        &mut tables.letters[..all],
        &mut tables.reaching[..all],
        &mut counts[..n],
        &mut tables.gives[..all],
        &mut tables.passes[..all],
        &mut tables.halves[..all],
        &mut taken[..e],
    )
}

// The same with tables of its own; not inlined, so that the stack of small tables is not that of large ones.
#[inline(never)]
fn run_in<const CELLS: usize, const EDGES: usize, const VERTICES: usize>(
    routine: &Routine,
    path: &[u8],
    out: &mut [u8],
) -> Result<usize, Refusal>
    requires sizes_bound { (CELLS ≤ 2048) × (EDGES ≤ 1192) × (VERTICES ≤ 256) }
    requires edges_room { edges routine.now.bytes ≤ EDGES }
    requires cells_room { 8 * vertices routine.now.bytes ≤ CELLS }
    requires counts_room { vertices routine.now.bytes ≤ VERTICES }
    ensures { RanRead routine.now.bytes path.now out.old result out.new }
{
    let mut tables = Tables::<CELLS, EDGES>::new();
    let mut counts = [0u8; VERTICES];
    let mut taken = [0u16; EDGES];
    run_within(routine, path, out, &mut tables, &mut counts, &mut taken)
}

// With small tables for at most 32 vertices and 128 edges, so that a small routine does not pay for the zeroing of large ones; else with tables
// for any routine.
fn run_read(routine: &Routine, path: &[u8], out: &mut [u8]) -> Result<usize, Refusal>
    ensures { RanRead routine.now.bytes path.now out.old result out.new }
{
    if routine.vertices() <= 32 && routine.edges() <= 128 {
        return run_in::<256, 128, 32>(routine, path, out);
    }
    run_in::<2048, 1192, 256>(routine, path, out)
}

// Runs a path through the routine that a file with calls expands to, which `work` is for.
fn run_expanded(
    routine: &Routine,
    path: &[u8],
    out: &mut [u8],
    work: &mut [u8],
) -> Result<usize, Refusal>
    requires calls_read { CallsRead routine.now.bytes }
    requires work_len { length work.old ≡ 6866 }
    ensures { Ran routine.now.bytes path.now out.old result out.new }
{
    let expanded = expansion::expand(routine, work);
    let e = expanded.answer?;
    let n = e.end_at();
    let expanded = Routine::new(&work[..n], e);
    run_read(&expanded, path, out)
}

// The same with bytes for any expanded routine.
fn run_calls_large(routine: &Routine, path: &[u8], out: &mut [u8]) -> Result<usize, Refusal>
    requires { CallsRead routine.now.bytes }
    ensures { Ran routine.now.bytes path.now out.old result out.new }
{
    let mut work = [0u8; 6866];
    run_expanded(routine, path, out, &mut work)
}

// Runs a path through what a file with calls expands to, a routine of `count` vertices, at most 32, and at most 128 edges: its tables serve the
// expansion first.
fn run_calls_small(
    routine: &Routine,
    firsts: &[u16],
    count: usize,
    path: &[u8],
    out: &mut [u8],
) -> Result<usize, Refusal>
    requires calls_read { CallsRead routine.now.bytes }
    requires firsts { Firsts routine.now.bytes firsts.now }
    requires vertices_counted { count ≡ expanded_vertices routine.now.bytes }
    requires is_small { (count ≤ 32) × (edges routine.now.bytes + count ≤ 128 + vertices routine.now.bytes) }
    ensures { Ran routine.now.bytes path.now out.old result out.new }
{
    let mut work = [0u8; 818];
    let mut tables = Tables::<256, 128>::new();
    let mut counts = [0u8; 32];
    let mut taken = [0u16; 128];
    let expanded = expansion::expand_within(routine, firsts, count, &mut work, &mut tables);
    let e = expanded.answer?;
    let n = e.end_at();
    let expanded = Routine::new(&work[..n], e);
    run_within(&expanded, path, out, &mut tables, &mut counts, &mut taken)
}

// A file of at most 32 vertices, with tables by what it expands to: each call has two vertices and two edges more.
fn run_calls_counted(
    routine: &Routine,
    firsts: &mut [u16],
    path: &[u8],
    out: &mut [u8],
) -> Result<usize, Refusal>
    requires calls_read { CallsRead routine.now.bytes }
    requires few_vertices { vertices routine.now.bytes ≤ 32 }
    requires firsts_len { length firsts.old ≡ 33 }
    ensures { Ran routine.now.bytes path.now out.old result out.new }
{
    let count = scan::fill_firsts(routine, firsts);
    if count <= 32 && routine.edges() + count <= 128 + routine.vertices() {
        return run_calls_small(routine, firsts, count, path, out);
    }
    run_calls_large(routine, path, out)
}

fn run_calls(routine: &Routine, path: &[u8], out: &mut [u8]) -> Result<usize, Refusal>
    requires { CallsRead routine.now.bytes }
    ensures { Ran routine.now.bytes path.now out.old result out.new }
{
    if routine.vertices() <= 32 {
        let mut firsts = [0u16; 33];
        return run_calls_counted(routine, &mut firsts, path, out);
    }
    run_calls_large(routine, path, out)
}

// Runs `path` through the routine in `file`, and writes the report into `out`.
pub fn run(file: &[u8], path: &[u8], out: &mut [u8]) -> Result<usize, Refusal>
    ensures { Ran file.now path.now out.old result out.new }
{
    let answer = reader::read(file);
    let Ok(header) = answer else {
        return reader::denied(answer);
    };
    let routine = Routine::new(file, header);
    if scan::any(&routine) {
        return run_calls(&routine, path, out);
    }
    run_read(&routine, path, out)
}

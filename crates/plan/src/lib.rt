// The call that plans a routine (document 01).
#![tactic(auto)]

ghost use Rattle.std.specs.Prelude.{◌≡◌, ◌+◌, ◌*◌, ◌≤◌, ◌<◌, length};
ghost use Rattle.calls.specs.Checks.{CallsRead};
ghost use Rattle.calls.specs.Expanded.{expanded_edges, expanded};
ghost use Rattle.calls.specs.Parts.{expanded_vertices};
ghost use Rattle.calls.specs.Writing.{Firsts};
ghost use Rattle.planned.specs.Calls.{PlannedRead, Planned};
ghost use Rattle.routine.specs.Layout.{vertices, edges};

use calls::scan;
use checks::Tables;
use labels::read::Routine;
use passes::tables;
use planbytes::writer;
use refusal::Refusal;
use routine::reader;
use sets::{Half, Set};

// Plans a routine that was read. `order` holds an entry for each edge, `firsts` one for each vertex and one more, the other tables eight for
// each vertex.
fn plan_with(
    routine: &Routine,
    out: &mut [u8],
    order: &mut [u16],
    versions: &mut [Set],
    uses: &mut [Half],
    letters: &mut [u8],
    reaching: &mut [Set],
    kept: &mut [Set],
    firsts: &mut [u16],
    gives: &mut [Half],
    passes: &mut [Half],
    halves: &mut [Half],
) -> Result<usize, Refusal>
    requires order_len { length order.old ≡ edges routine.now.bytes }
    requires versions_len { length versions.old ≡ 8 * vertices routine.now.bytes }
    requires uses_len { length uses.old ≡ 8 * vertices routine.now.bytes }
    requires letters_len { length letters.old ≡ 8 * vertices routine.now.bytes }
    requires reaching_len { length reaching.old ≡ 8 * vertices routine.now.bytes }
    requires kept_len { length kept.old ≡ 8 * vertices routine.now.bytes }
    requires firsts_room { vertices routine.now.bytes < length firsts.old }
    requires gives_len { length gives.old ≡ 8 * vertices routine.now.bytes }
    requires passes_len { length passes.old ≡ 8 * vertices routine.now.bytes }
    requires halves_len { length halves.old ≡ 8 * vertices routine.now.bytes }
    ensures { PlannedRead routine.now.bytes out.old result out.new }
{
    let checked = checks::prepare(
        routine, order, versions, uses, letters, reaching, gives, passes, halves,
    );
    let verdict = checked.verdict;
    let length = planned::reply(routine, out.len(), verdict, versions, firsts)?;
    tables::kept(
        routine, order, versions, letters, kept, gives, passes, halves,
    );
    writer::write(routine, versions, letters, reaching, kept, firsts, out);
    Ok(length)
}

// The same with tables that are large enough.
fn plan_within<const CELLS: usize, const EDGES: usize>(
    routine: &Routine,
    out: &mut [u8],
    tables: &mut Tables<CELLS, EDGES>,
    kept: &mut [Set; CELLS],
    firsts: &mut [u16],
) -> Result<usize, Refusal>
    requires edges_room { edges routine.now.bytes ≤ EDGES }
    requires cells_room { 8 * vertices routine.now.bytes ≤ CELLS }
    requires firsts_room { vertices routine.now.bytes < length firsts.old }
    ensures { PlannedRead routine.now.bytes out.old result out.new }
{
    let all = flow::COLUMNS * routine.vertices();
    let m = routine.edges();
    plan_with(
        routine,
        out,
        &mut tables.order[..m],
        &mut tables.versions[..all],
        &mut tables.uses[..all],
        &mut tables.letters[..all],
        &mut tables.reaching[..all],
        &mut kept[..all],
        firsts,
        &mut tables.gives[..all],
        &mut tables.passes[..all],
        &mut tables.halves[..all],
    )
}

// The same with tables of its own; not inlined, so that the stack of small tables is not that of large ones.
#[inline(never)]
fn plan_in<const CELLS: usize, const EDGES: usize, const FIRSTS: usize>(
    routine: &Routine,
    out: &mut [u8],
) -> Result<usize, Refusal>
    requires sizes_bound { (CELLS ≤ 2048) × (EDGES ≤ 1192) × (FIRSTS ≤ 257) }
    requires edges_room { edges routine.now.bytes ≤ EDGES }
    requires cells_room { 8 * vertices routine.now.bytes ≤ CELLS }
    requires firsts_room { vertices routine.now.bytes < FIRSTS }
    ensures { PlannedRead routine.now.bytes out.old result out.new }
{
    let mut tables = Tables::<CELLS, EDGES>::new();
    let mut kept = [0 as Set; CELLS];
    let mut firsts = [0u16; FIRSTS];
    plan_within(routine, out, &mut tables, &mut kept, &mut firsts)
}

// With small tables for at most 32 vertices and 128 edges, so that a small routine does not pay for the zeroing of large ones; else with tables
// for any routine.
fn plan_read(routine: &Routine, out: &mut [u8]) -> Result<usize, Refusal>
    ensures { PlannedRead routine.now.bytes out.old result out.new }
{
    if routine.vertices() <= 32 && routine.edges() <= 128 {
        return plan_in::<256, 128, 33>(routine, out);
    }
    plan_in::<2048, 1192, 257>(routine, out)
}

// Plans a file with calls: the routine that it expands to, which `work` is for.
fn plan_expanded(routine: &Routine, out: &mut [u8], work: &mut [u8]) -> Result<usize, Refusal>
    requires calls_read { CallsRead routine.now.bytes }
    requires work_len { length work.old ≡ 6866 }
    ensures { Planned routine.now.bytes out.old result out.new }
{
    let expanded = expansion::expand(routine, work);
    let e = expanded.answer?;
    let n = e.end_at();
    let expanded = Routine::new(&work[..n], e);
    plan_read(&expanded, out)
}

// The same with bytes for any expanded routine.
fn plan_calls_large(routine: &Routine, out: &mut [u8]) -> Result<usize, Refusal>
    requires { CallsRead routine.now.bytes }
    ensures { Planned routine.now.bytes out.old result out.new }
{
    let mut work = [0u8; 6866];
    plan_expanded(routine, out, &mut work)
}

// Plans a file with calls whose expanded routine has `count` vertices, at most 32, and at most 128 edges: its tables serve the expansion first.
fn plan_calls_small(
    routine: &Routine,
    count: usize,
    firsts: &mut [u16],
    out: &mut [u8],
) -> Result<usize, Refusal>
    requires calls_read { CallsRead routine.now.bytes }
    requires firsts { Firsts routine.now.bytes firsts.old }
    requires vertices_counted { count ≡ expanded_vertices routine.now.bytes }
    requires firsts_len { length firsts.old ≡ 33 }
    requires is_small { (count ≤ 32) × (edges routine.now.bytes + count ≤ 128 + vertices routine.now.bytes) }
    ensures { Planned routine.now.bytes out.old result out.new }
{
    let mut work = [0u8; 818];
    let mut tables = Tables::<256, 128>::new();
    let mut kept = [0 as Set; 256];
    let expanded = expansion::expand_within(routine, firsts, count, &mut work, &mut tables);
    let e = expanded.answer?;
    let n = e.end_at();
    let expanded = Routine::new(&work[..n], e);
    plan_within(&expanded, out, &mut tables, &mut kept, firsts)
}

// A file of at most 32 vertices, with tables by what it expands to: each call has two vertices and two edges more.
fn plan_calls_counted(
    routine: &Routine,
    firsts: &mut [u16],
    out: &mut [u8],
) -> Result<usize, Refusal>
    requires calls_read { CallsRead routine.now.bytes }
    requires few_vertices { vertices routine.now.bytes ≤ 32 }
    requires firsts_len { length firsts.old ≡ 33 }
    ensures { Planned routine.now.bytes out.old result out.new }
{
    let count = scan::fill_firsts(routine, firsts);
    if count <= 32 && routine.edges() + count <= 128 + routine.vertices() {
        return plan_calls_small(routine, count, firsts, out);
    }
    plan_calls_large(routine, out)
}

fn plan_calls(routine: &Routine, out: &mut [u8]) -> Result<usize, Refusal>
    requires { CallsRead routine.now.bytes }
    ensures { Planned routine.now.bytes out.old result out.new }
{
    if routine.vertices() <= 32 {
        let mut firsts = [0u16; 33];
        return plan_calls_counted(routine, &mut firsts, out);
    }
    plan_calls_large(routine, out)
}

// Plans the routine in `file` into `out`.
pub fn plan(file: &[u8], out: &mut [u8]) -> Result<usize, Refusal>
    ensures { Planned file.now out.old result out.new }
{
    let answer = reader::read(file);
    let Ok(header) = answer else {
        return reader::denied(answer);
    };
    let routine = Routine::new(file, header);
    if scan::any(&routine) {
        return plan_calls(&routine, out);
    }
    plan_read(&routine, out)
}

// What `plan` and `run` do first with a file that has calls (document 02, request 3): 22; then 20 and 21, of the file with each call read as
// the reference of its intent; then the expanded routine.
#![tactic(auto)]

ghost use Rattle.std.specs.Prelude.{◌≡◌, ◌*◌, ◌≤◌, ◌<◌, length};
ghost use Rattle.calls.specs.Expanded.{expanded};
ghost use Rattle.calls.specs.Interfaces.{Interfaces, Expandable};
ghost use Rattle.calls.specs.Parts.{expanded_vertices};
ghost use Rattle.calls.specs.Writing.{Firsts};
ghost use Rattle.expansion.specs.Expansion.{JudgedCalls, Expansion};
ghost use Rattle.routine.specs.Layout.{vertices, edges};

use calls::{expanded, references, scan};
use checks::{Judgement, Tables};
use labels::read::Routine;
use refusal::Refusal;
use routine::header::Header;
use sets::{Half, Set};

// What becomes of a file with calls, and the rounds of the passes that were made for it: that for the vertices that are reached, 0 if it was
// not needed, and that for the versions that arrive. Both are 0 where 22 or 20 refuses.
#[derive(Clone, Copy)]
pub struct Expanded {
    pub answer: Result<Header, Refusal>,
    pub reached: usize,
    pub arriving: usize,
}

// 20 and 21 of the file with calls as references, which is written into `judged`. Where both pass, `brought` is left with the versions that
// arrive at its vertices. `order` holds an entry for each edge, the other tables eight for each vertex.
fn judge(
    routine: &Routine,
    judged: &mut [u8],
    order: &mut [u16],
    versions: &mut [Set],
    uses: &mut [Half],
    brought: &mut [Set],
    gives: &mut [Half],
    passes: &mut [Half],
    halves: &mut [Half],
) -> Judgement
    requires interfaces { Interfaces routine.now.bytes }
    requires judged_len { length judged.old ≡ length routine.now.bytes }
    requires order_len { length order.old ≡ edges routine.now.bytes }
    requires versions_len { length versions.old ≡ 8 * vertices routine.now.bytes }
    requires uses_len { length uses.old ≡ 8 * vertices routine.now.bytes }
    requires brought_len { length brought.old ≡ 8 * vertices routine.now.bytes }
    requires gives_len { length gives.old ≡ 8 * vertices routine.now.bytes }
    requires passes_len { length passes.old ≡ 8 * vertices routine.now.bytes }
    requires halves_len { length halves.old ≡ 8 * vertices routine.now.bytes }
    ensures { JudgedCalls routine.now.bytes result brought.new }
{
    references::write(routine, judged);
    let referring = Routine::new(judged, routine.header());
    checks::judge(
        &referring, order, versions, uses, brought, gives, passes, halves,
    )
}

// 20 and 21; then the expanded routine, which has `count` vertices. The front of `out` holds the file with calls as references for a time.
fn expand_with(
    routine: &Routine,
    firsts: &[u16],
    count: usize,
    out: &mut [u8],
    order: &mut [u16],
    versions: &mut [Set],
    uses: &mut [Half],
    brought: &mut [Set],
    gives: &mut [Half],
    passes: &mut [Half],
    halves: &mut [Half],
) -> Expanded
    requires expandable { Expandable routine.now.bytes }
    requires firsts { Firsts routine.now.bytes firsts.now }
    requires vertices_counted { count ≡ expanded_vertices routine.now.bytes }
    requires out_room { length (expanded routine.now.bytes) ≤ length out.old }
    requires order_len { length order.old ≡ edges routine.now.bytes }
    requires versions_len { length versions.old ≡ 8 * vertices routine.now.bytes }
    requires uses_len { length uses.old ≡ 8 * vertices routine.now.bytes }
    requires brought_len { length brought.old ≡ 8 * vertices routine.now.bytes }
    requires gives_len { length gives.old ≡ 8 * vertices routine.now.bytes }
    requires passes_len { length passes.old ≡ 8 * vertices routine.now.bytes }
    requires halves_len { length halves.old ≡ 8 * vertices routine.now.bytes }
    ensures { Expansion routine.now.bytes result out.new }
{
    let size = routine.bytes().len();
    let judged = judge(
        routine,
        &mut out[..size],
        order,
        versions,
        uses,
        brought,
        gives,
        passes,
        halves,
    );
    let verdict = judged.verdict;
    if let Err(r) = verdict {
        return Expanded {
            answer: Err(r),
            reached: judged.reached,
            arriving: judged.brought,
        };
    }
    let e = expanded::write(routine, brought, firsts, count, out);
    Expanded {
        answer: Ok(e),
        reached: judged.reached,
        arriving: judged.brought,
    }
}

// The same with tables that are large enough.
pub fn expand_within<const CELLS: usize, const EDGES: usize>(
    routine: &Routine,
    firsts: &[u16],
    count: usize,
    out: &mut [u8],
    tables: &mut Tables<CELLS, EDGES>,
) -> Expanded
    requires expandable { Expandable routine.now.bytes }
    requires firsts { Firsts routine.now.bytes firsts.now }
    requires vertices_counted { count ≡ expanded_vertices routine.now.bytes }
    requires out_room { length (expanded routine.now.bytes) ≤ length out.old }
    requires edges_room { edges routine.now.bytes ≤ EDGES }
    requires cells_room { 8 * vertices routine.now.bytes ≤ CELLS }
    ensures { Expansion routine.now.bytes result out.new }
{
    let all = flow::COLUMNS * routine.vertices();
    let m = routine.edges();
    expand_with(
        routine,
        firsts,
        count,
        out,
        &mut tables.order[..m],
        &mut tables.versions[..all],
        &mut tables.uses[..all],
        &mut tables.reaching[..all],
        &mut tables.gives[..all],
        &mut tables.passes[..all],
        &mut tables.halves[..all],
    )
}

// The same with tables of its own; not inlined, so that the stack of small tables is not that of large ones.
#[inline(never)]
fn expand_in<const CELLS: usize, const EDGES: usize>(
    routine: &Routine,
    firsts: &[u16],
    count: usize,
    out: &mut [u8],
) -> Expanded
    requires expandable { Expandable routine.now.bytes }
    requires firsts { Firsts routine.now.bytes firsts.now }
    requires vertices_counted { count ≡ expanded_vertices routine.now.bytes }
    requires out_len { length out.old ≡ 6866 }
    requires sizes_bound { (CELLS ≤ 2048) × (EDGES ≤ 1192) }
    requires edges_room { edges routine.now.bytes ≤ EDGES }
    requires cells_room { 8 * vertices routine.now.bytes ≤ CELLS }
    ensures { Expansion routine.now.bytes result out.new }
{
    let mut tables = Tables::<CELLS, EDGES>::new();
    expand_within(routine, firsts, count, out, &mut tables)
}

// With small tables for at most 32 vertices and 128 edges, as `plan` has them for small routines; else with tables for any file.
fn expand_few(routine: &Routine, firsts: &[u16], count: usize, out: &mut [u8]) -> Expanded
    requires expandable { Expandable routine.now.bytes }
    requires firsts { Firsts routine.now.bytes firsts.now }
    requires vertices_counted { count ≡ expanded_vertices routine.now.bytes }
    requires out_len { length out.old ≡ 6866 }
    ensures { Expansion routine.now.bytes result out.new }
{
    if routine.vertices() <= 32 && routine.edges() <= 128 {
        return expand_in::<256, 128>(routine, firsts, count, out);
    }
    expand_in::<2048, 1024>(routine, firsts, count, out)
}

// 22; then the rest, with the first vertices in hand.
fn expand_counted(routine: &Routine, firsts: &mut [u16], out: &mut [u8]) -> Expanded
    requires interfaces { Interfaces routine.now.bytes }
    requires few_edges { edges routine.now.bytes ≤ 1024 }
    requires firsts_room { vertices routine.now.bytes < length firsts.old }
    requires out_len { length out.old ≡ 6866 }
    ensures { Expansion routine.now.bytes result out.new }
{
    let count = scan::fill_firsts(routine, firsts);
    if count > Header::MAX_VERTICES {
        let r = Refusal::TooManyVertices { vertices: count };
        return Expanded {
            answer: Err(r),
            reached: 0,
            arriving: 0,
        };
    }
    expand_few(routine, firsts, count, out)
}

// 22, 20 and 21 of a file with calls that was read; else the header of its expanded routine, which is then at the front of `out`.
pub fn expand(routine: &Routine, out: &mut [u8]) -> Expanded
    requires interfaces { Interfaces routine.now.bytes }
    requires few_edges { edges routine.now.bytes ≤ 1024 }
    requires out_len { length out.old ≡ 6866 }
    ensures { Expansion routine.now.bytes result out.new }
{
    let mut firsts = [0u16; 257];
    expand_counted(routine, &mut firsts, out)
}

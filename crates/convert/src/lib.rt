// The call that turns a directive file into a routine file (document 02, request 4).
#![tactic(auto)]

ghost use Rattle.std.specs.Prelude.{◌≡◌, ℕ, ◌*◌, ◌≤◌, length};
ghost use Rattle.directives.specs.Layout.{vertices, edges};
ghost use Rattle.labels.specs.Checks.{programmer_check};
ghost use Rattle.mappings.specs.Computed.{check41, check42, converted};
ghost use Rattle.mappings.specs.Convert.{Converts};
ghost use Rattle.mappings.specs.Tables.{EdgeOrder};
ghost use Rattle.numbering.specs.Lists.{AllNumbered};
ghost use Rattle.convert.specs.Steps.{Prepared, delivered, delivered_into};

use brought::{alignments, spreads};
use converted::writer;
use directives::header::Header;
use directives::read::Directives;
use directives::reader;
use facts::{pass, reached};
use labels::read::Routine;
use left::check;
use numbering::numbers;
use refusal::Refusal;
use sets::{Half, Set};

// Refusal 41. Where it passes, `given` is left with the versions that directives give, `counts` with the number of each array's. The slices
// behind `counts` are work slices.
fn number(
    directives: &Directives,
    order: &mut [u16],
    given: &mut [Set],
    counts: &mut [u8],
    reached: &mut [Half],
    aligned: &mut [Half],
    spreads: &mut [Set],
    gives: &mut [Half],
    passes: &mut [Half],
    halves: &mut [Half],
) -> Result<(), Refusal>
    requires order_len { length order.old ≡ edges directives.now.bytes }
    requires given_len { length given.old ≡ 8 * vertices directives.now.bytes }
    requires counts_len { length counts.old ≡ 8 }
    requires reached_len { length reached.old ≡ 8 * vertices directives.now.bytes }
    requires aligned_len { length aligned.old ≡ 8 * vertices directives.now.bytes }
    requires spreads_len { length spreads.old ≡ 8 * vertices directives.now.bytes }
    requires gives_len { length gives.old ≡ 8 * vertices directives.now.bytes }
    requires passes_len { length passes.old ≡ 8 * vertices directives.now.bytes }
    requires halves_len { length halves.old ≡ 8 * vertices directives.now.bytes }
    ensures edge_order { EdgeOrder directives.now.bytes order.new }
    ensures value { result ≡ check41 directives.now.bytes }
    ensures all_numbered { AllNumbered directives.now.bytes result given.new counts.new }
{
    pass::order(directives, order);
    reached::solve(directives, order, reached, gives, passes);
    alignments::solve(directives, order, reached, aligned, gives, passes);
    // `given` is a work slice until the mappings are numbered
    spreads::solve(
        directives, order, reached, spreads, given, gives, passes, halves,
    );
    numbers::check(directives, aligned, spreads, given, counts)
}

// Refusals 20 and 21 of the routine that the file becomes. The slices behind it are work slices.
fn judge(
    directives: &Directives,
    routine: &[u8],
    order: &mut [u16],
    versions: &mut [Set],
    uses: &mut [Half],
    brought: &mut [Set],
    gives: &mut [Half],
    passes: &mut [Half],
    halves: &mut [Half],
) -> Result<(), Refusal>
    requires file_value { check41 directives.now.bytes ≡ Ok tt }
    requires file_value_2 { check42 directives.now.bytes ≡ Ok tt }
    requires routine_value { routine.now ≡ converted directives.now.bytes }
    requires order_len { length order.old ≡ edges directives.now.bytes }
    requires versions_len { length versions.old ≡ 8 * vertices directives.now.bytes }
    requires uses_len { length uses.old ≡ 8 * vertices directives.now.bytes }
    requires brought_len { length brought.old ≡ 8 * vertices directives.now.bytes }
    requires gives_len { length gives.old ≡ 8 * vertices directives.now.bytes }
    requires passes_len { length passes.old ≡ 8 * vertices directives.now.bytes }
    requires halves_len { length halves.old ≡ 8 * vertices directives.now.bytes }
    ensures { result ≡ programmer_check (converted directives.now.bytes) }
{
    let routine = Routine::new(routine, writer::header_of(directives));
    let answer = checks::judge(
        &routine, order, versions, uses, brought, gives, passes, halves,
    );
    answer.verdict
}

// Writes the routine into `work`, and checks it. The slices behind `counts` are work slices.
fn write_checked(
    directives: &Directives,
    work: &mut [u8],
    order: &mut [u16],
    given: &mut [Set],
    counts: &[u8],
    uses: &mut [Half],
    brought: &mut [Set],
    gives: &mut [Half],
    passes: &mut [Half],
    halves: &mut [Half],
) -> Result<usize, Refusal>
    requires file_value { check41 directives.now.bytes ≡ Ok tt }
    requires file_value_2 { check42 directives.now.bytes ≡ Ok tt }
    requires all_numbered { AllNumbered directives.now.bytes (Ok tt) given.old counts.now }
    requires work_len { length work.old ≡ 6194 }
    requires order_len { length order.old ≡ edges directives.now.bytes }
    requires uses_len { length uses.old ≡ 8 * vertices directives.now.bytes }
    requires brought_len { length brought.old ≡ 8 * vertices directives.now.bytes }
    requires gives_len { length gives.old ≡ 8 * vertices directives.now.bytes }
    requires passes_len { length passes.old ≡ 8 * vertices directives.now.bytes }
    requires halves_len { length halves.old ≡ 8 * vertices directives.now.bytes }
    ensures { Prepared directives.now.bytes result work.new }
{
    let n = writer::write(directives, given, counts, work);
    judge(
        directives,
        &work[..n],
        order,
        given,
        uses,
        brought,
        gives,
        passes,
        halves,
    )?;
    Ok(n)
}

// All checks but 40 and 1, and the routine in `work`.
fn convert_with(
    directives: &Directives,
    work: &mut [u8],
    order: &mut [u16],
    given: &mut [Set],
    counts: &mut [u8],
    reached: &mut [Half],
    aligned: &mut [Half],
    spreads: &mut [Set],
    others: &mut [Set],
    gives: &mut [Half],
    passes: &mut [Half],
    halves: &mut [Half],
) -> Result<usize, Refusal>
    requires work_len { length work.old ≡ 6194 }
    requires order_len { length order.old ≡ edges directives.now.bytes }
    requires given_len { length given.old ≡ 8 * vertices directives.now.bytes }
    requires counts_len { length counts.old ≡ 8 }
    requires reached_len { length reached.old ≡ 8 * vertices directives.now.bytes }
    requires aligned_len { length aligned.old ≡ 8 * vertices directives.now.bytes }
    requires spreads_len { length spreads.old ≡ 8 * vertices directives.now.bytes }
    requires others_len { length others.old ≡ 8 * vertices directives.now.bytes }
    requires gives_len { length gives.old ≡ 8 * vertices directives.now.bytes }
    requires passes_len { length passes.old ≡ 8 * vertices directives.now.bytes }
    requires halves_len { length halves.old ≡ 8 * vertices directives.now.bytes }
    ensures { Prepared directives.now.bytes result work.new }
{
    number(
        directives, order, given, counts, reached, aligned, spreads, gives, passes, halves,
    )?;
    check::check(
        directives, order, given, others, spreads, gives, passes, halves,
    )?;
    write_checked(
        directives, work, order, given, counts, reached, others, gives, passes, halves,
    )
}

// The same with tables of its own; not inlined, so that the stack of small tables is not that of large ones.
#[inline(never)]
fn convert_in<const CELLS: usize, const EDGES: usize>(
    directives: &Directives,
    work: &mut [u8],
) -> Result<usize, Refusal>
    requires work_len { length work.old ≡ 6194 }
    requires sizes_bound { (CELLS ≤ 2048) × (EDGES ≤ 1024) }
    requires edges_room { edges directives.now.bytes ≤ EDGES }
    requires cells_room { 8 * vertices directives.now.bytes ≤ CELLS }
    ensures { Prepared directives.now.bytes result work.new }
{
    let mut order = [0u16; EDGES];
    let mut given = [0 as Set; CELLS];
    let mut counts = [0u8; flow::COLUMNS];
    let mut reached = [0 as Half; CELLS];
    let mut aligned = [0 as Half; CELLS];
    let mut spreads = [0 as Set; CELLS];
    let mut others = [0 as Set; CELLS];
    let mut gives = [0 as Half; CELLS];
    let mut passes = [0 as Half; CELLS];
    let mut halves = [0 as Half; CELLS];
    let all = flow::COLUMNS * directives.vertices();
    let m = directives.edges();
    convert_with(
        directives,
        work,
        &mut order[..m],
        &mut given[..all],
        &mut counts,
        &mut reached[..all],
        &mut aligned[..all],
        &mut spreads[..all],
        &mut others[..all],
        &mut gives[..all],
        &mut passes[..all],
        &mut halves[..all],
    )
}

// With small tables for at most 32 vertices and 128 edges, so that a small file does not pay for the zeroing of large ones; else with tables for
// any directive file.
fn convert_into(directives: &Directives, work: &mut [u8]) -> Result<usize, Refusal>
    requires { length work.old ≡ 6194 }
    ensures { Prepared directives.now.bytes result work.new }
{
    if directives.vertices() <= 32 && directives.edges() <= 128 {
        return convert_in::<256, 128>(directives, work);
    }
    convert_in::<2048, 1024>(directives, work)
}

// Refusal 1, or the routine copied from `work`: what refuses has not yet written a byte.
fn deliver(reply: Result<usize, Refusal>, work: &[u8], out: &mut [u8]) -> Result<usize, Refusal>
    requires { (n : ℕ) → reply ≡ Ok n → n ≤ length work.now }
    ensures value { result ≡ delivered reply (length out.old) }
    ensures out_after { out.new ≡ delivered_into result work.now out.old }
{
    let n = reply?;
    if n > out.len() {
        return Err(Refusal::ShortRoutineBuffer { needed: n });
    }
    words::bytes::copy(&work[..n], out);
    Ok(n)
}

// Converts a file that 40 passes. `work` is a work slice.
fn convert_read(directives: &Directives, work: &mut [u8], out: &mut [u8]) -> Result<usize, Refusal>
    requires work_len { length work.old ≡ 6194 }
    ensures { Converts directives.now.bytes out.old result out.new }
{
    let reply = convert_into(directives, work);
    deliver(reply, work, out)
}

// Turns the directive file in `file` into a routine file in `out`.
pub fn convert(file: &[u8], out: &mut [u8]) -> Result<usize, Refusal>
    ensures { Converts file.now out.old result out.new }
{
    reader::check(file)?;
    let mut work = [0u8; writer::MAX_SIZE];
    let directives = Directives::new(file, Header::of(file));
    convert_read(&directives, &mut work, out)
}

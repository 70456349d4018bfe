// The call that tells how many rounds each pass of the planner takes (document 02, request 5).
#![tactic(auto)]

ghost use Rattle.std.specs.Prelude.{◌≡◌, false, ◌++◌, ◌*◌, ◌≤◌, ◌<◌, length};
ghost use Rattle.calls.specs.Calls.{has_calls};
ghost use Rattle.calls.specs.Checks.{CallsRead};
ghost use Rattle.rounds.specs.Calls.{four_bytes, Counted, Rounded};
ghost use Rattle.routine.specs.Layout.{vertices, edges};
ghost use Rattle.routine.specs.Reader.{read_check};
ghost use Rattle.words.specs.Tables.{wrote};
ghost use Rattle.words.specs.Words.{bytes16};

use calls::scan;
use checks::Tables;
use labels::read::Routine;
use passes::tables;
use refusal::Refusal;
use routine::reader;
use sets::{Half, Set};

// Bytes of the numbers of four passes, and of six.
const FOUR: usize = 8;

const SIX: usize = 12;

// Refusals 20 and 21, and the rounds of the four passes, 0 where 20 or 21 refuses; that of the reached vertices also if it was not needed.
#[derive(Clone, Copy)]
pub struct Passes {
    pub verdict: Result<(), Refusal>,
    pub letters: usize,
    pub reached: usize,
    pub reaching: usize,
    pub kept: usize,
}

// Makes the passes of a routine that was read. `order` holds an entry for each edge, the other tables eight for each vertex.
fn count_with(
    routine: &Routine,
    order: &mut [u16],
    versions: &mut [Set],
    uses: &mut [Half],
    letters: &mut [u8],
    reaching: &mut [Set],
    gives: &mut [Half],
    passes: &mut [Half],
    halves: &mut [Half],
) -> Passes
    requires order_len { length order.old ≡ edges routine.now.bytes }
    requires versions_len { length versions.old ≡ 8 * vertices routine.now.bytes }
    requires uses_len { length uses.old ≡ 8 * vertices routine.now.bytes }
    requires letters_len { length letters.old ≡ 8 * vertices routine.now.bytes }
    requires reaching_len { length reaching.old ≡ 8 * vertices routine.now.bytes }
    requires gives_len { length gives.old ≡ 8 * vertices routine.now.bytes }
    requires passes_len { length passes.old ≡ 8 * vertices routine.now.bytes }
    requires halves_len { length halves.old ≡ 8 * vertices routine.now.bytes }
    ensures { Counted routine.now.bytes result }
{
    let checked = checks::prepare(
        routine, order, versions, uses, letters, reaching, gives, passes, halves,
    );
    let verdict = checked.verdict;
    if let Err(_) = verdict {
        return Passes {
            verdict,
            letters: 0,
            reached: 0,
            reaching: 0,
            kept: 0,
        };
    }
    // from here on `reaching` holds the kept sets
    let last = tables::kept(
        routine, order, versions, letters, reaching, gives, passes, halves,
    );
    Passes {
        verdict,
        letters: checked.letters,
        reached: checked.reached,
        reaching: checked.reaching,
        kept: last,
    }
}

// With tables for any routine.
fn count(routine: &Routine) -> Passes
    ensures { Counted routine.now.bytes result }
{
    let mut tables = Tables::<2048, 1192>::new();
    let all = flow::COLUMNS * routine.vertices();
    let m = routine.edges();
    count_with(
        routine,
        &mut tables.order[..m],
        &mut tables.versions[..all],
        &mut tables.uses[..all],
        &mut tables.letters[..all],
        &mut tables.reaching[..all],
        &mut tables.gives[..all],
        &mut tables.passes[..all],
        &mut tables.halves[..all],
    )
}

// Writes the numbers of the four passes.
fn write_four(out: &mut [u8], letters: usize, reached: usize, reaching: usize, kept: usize)
    requires out_room { 8 ≤ length out.old }
    requires four_fit { (letters < 65536) × (reached < 65536) × (reaching < 65536) × (kept < 65536) }
    ensures { out.new ≡ wrote out.old (four_bytes letters reached reaching kept) }
{
    words::write_pair(out, letters, reached);
    words::write_pair(&mut out[4..], reaching, kept);
}

// Writes the numbers of the two passes of a file with calls, then of the four of its expanded routine.
fn write_six(
    out: &mut [u8],
    first: usize,
    arriving: usize,
    letters: usize,
    reached: usize,
    reaching: usize,
    kept: usize,
)
    requires out_room { 12 ≤ length out.old }
    requires two_fit { (first < 65536) × (arriving < 65536) }
    requires four_fit { (letters < 65536) × (reached < 65536) × (reaching < 65536) × (kept < 65536) }
    ensures { out.new ≡ wrote out.old (bytes16 first ++ (bytes16 arriving ++ four_bytes letters reached reaching kept)) }
{
    words::write_pair(out, first, arriving);
    write_four(&mut out[4..], letters, reached, reaching, kept);
}

// A routine without calls.
fn rounds_plain(routine: &Routine, out: &mut [u8]) -> Result<usize, Refusal>
    requires is_read { read_check routine.now.bytes ≡ Ok tt }
    requires no_calls { has_calls routine.now.bytes ≡ false }
    ensures { Rounded routine.now.bytes out.old result out.new }
{
    let p = count(routine);
    p.verdict?;
    if out.len() < FOUR {
        return Err(Refusal::ShortPlanBuffer { needed: FOUR });
    }
    write_four(out, p.letters, p.reached, p.reaching, p.kept);
    Ok(FOUR)
}

// A file with calls: its own passes, and those of the routine that it expands to, which `work` is for.
fn rounds_expanded(routine: &Routine, out: &mut [u8], work: &mut [u8]) -> Result<usize, Refusal>
    requires calls_read { CallsRead routine.now.bytes }
    requires work_len { length work.old ≡ 6866 }
    ensures { Rounded routine.now.bytes out.old result out.new }
{
    let expanded = expansion::expand(routine, work);
    let e = expanded.answer?;
    if out.len() < SIX {
        return Err(Refusal::ShortPlanBuffer { needed: SIX });
    }
    let n = e.end_at();
    let routine = Routine::new(&work[..n], e);
    let p = count(&routine);
    write_six(
        out,
        expanded.reached,
        expanded.arriving,
        p.letters,
        p.reached,
        p.reaching,
        p.kept,
    );
    Ok(SIX)
}

// The same with bytes for any expanded routine.
fn rounds_calls(routine: &Routine, out: &mut [u8]) -> Result<usize, Refusal>
    requires { CallsRead routine.now.bytes }
    ensures { Rounded routine.now.bytes out.old result out.new }
{
    let mut work = [0u8; 6866];
    rounds_expanded(routine, out, &mut work)
}

// Writes into `out` how many rounds each pass over `file` takes.
pub fn rounds(file: &[u8], out: &mut [u8]) -> Result<usize, Refusal>
    ensures { Rounded file.now out.old result out.new }
{
    let answer = reader::read(file);
    let Ok(header) = answer else {
        return reader::denied(answer);
    };
    let routine = Routine::new(file, header);
    if scan::any(&routine) {
        return rounds_calls(&routine, out);
    }
    rounds_plain(&routine, out)
}

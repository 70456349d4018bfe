// Following the path: at each step the references of all arrays, a record for each, and then the labels (document 01, "Run"). The
// report of an accepted path, and before that its length.
#![tactic(auto)]

ghost use Rattle.std.specs.Prelude.{◌≡◌, ◌++◌, ℕ, ◌+◌, ◌*◌, ◌≤◌, ◌<◌, length, get_or, replicate};
ghost use Rattle.labels.specs.Events.{event};
ghost use Rattle.passes.specs.Tables.{LettersAndKept};
ghost use Rattle.routine.specs.Arrays.{array_of};
ghost use Rattle.routine.specs.Layout.{arrays, vertices, edges};
ghost use Rattle.sets.specs.Sets.{width};
ghost use Rattle.state.specs.Carrying.{carrying, Visits};
ghost use Rattle.state.specs.Start.{started};
ghost use Rattle.path.specs.Passes.{passes_of};
ghost use Rattle.path.specs.Paths.{steps, path_check};
ghost use Rattle.report.specs.Bytes.{carried_of, records_bytes};
ghost use Rattle.report.specs.References.{references_at};
ghost use Rattle.walk.specs.Report.{counts, report_bytes, references_on, report_length};
ghost use Rattle.demand.specs.Run.{state_after, run_records};
ghost use Rattle.walk.specs.Walks.{Held, Reported, row_bytes, Referred, OneSort, Unlabelled, Labels, RelabelledAt};
ghost use Rattle.words.specs.Tables.{table, replaced, wrote};

use labels::read::Routine;
use report::record::Record;
use routine::action::Action;
use routine::array::ArrayRecord;
use sets::{Set, WIDTH};
use state::Carried;

// How many references the path meets.
fn references_on(routine: &Routine, path: &[u8], counts: &[u8]) -> usize
    requires references_counted { counts.now ≡ table (references_at routine.now.bytes) (vertices routine.now.bytes) }
    requires path_checked { path_check routine.now.bytes path.now ≡ Ok tt }
    ensures value { result ≡ references_on routine.now.bytes path.now (steps path.now) }
    ensures upper_bound { result ≤ 32768 }
{
    let mut count = 0;
    for i in 0..path::count(path) {
        count += counts[path::vertex(path, i)] as usize;
    }
    count
}

// The length of the report. `counts` is a work slice of one entry for each vertex.
pub fn length(routine: &Routine, path: &[u8], counts: &mut [u8]) -> usize
    requires path_checked { path_check routine.now.bytes path.now ≡ Ok tt }
    requires counts_len { length counts.old ≡ vertices routine.now.bytes }
    ensures { result ≡ report_length routine.now.bytes path.now }
{
    report::fill(routine, counts);
    let records = Record::SIZE * references_on(routine, path, counts);
    report::ENTRY * routine.arrays() + records + report::COUNT * routine.edges()
}

// The states before the first step, with the current versions and their stamps. In the table beside them every stamp is 0.
fn start_all(
    routine: &Routine,
    versions: &mut [u8; ArrayRecord::MAX],
    stamps: &mut [u16; ArrayRecord::MAX],
) -> [Carried; ArrayRecord::MAX]
    requires versions_len { length versions.old ≡ 8 }
    requires stamps_len { length stamps.old ≡ 8 }
    ensures { Held routine.now.bytes (λ a. started (array_of routine.now.bytes a)) (arrays routine.now.bytes) result versions.new stamps.new (replicate (8 * width) 0) }
{
    let none = state::empty(0);
    let mut states = [none; ArrayRecord::MAX];
    for a in 0..routine.arrays() {
        let s = state::start(routine.array(a));
        versions[a] = s.current;
        stamps[a] = s.stamp;
        states[a] = s;
    }
    states
}

// Whether the row of vertex v has remappings: the first action that is not 00 tells, since a row has references or remappings, never both.
fn remaps(routine: &Routine, v: usize) -> bool
    requires v_bound { v < vertices routine.now.bytes }
    ensures { OneSort routine.now.bytes v result }
{
    for a in 0..routine.arrays() {
        let x = routine.action(a, v);
        let reference = x.is_reference();
        if reference {
            return false;
        }
        let remap = x.is_remap();
        if remap {
            return true;
        }
    }
    false
}

// Whether vertex v may have labels: it is the entry or the exit, or has remappings. Then it has no references, and else no labels.
fn has_labels(routine: &Routine, v: usize) -> bool
    requires v_bound { v < vertices routine.now.bytes }
    ensures { Labels routine.now.bytes v result }
{
    let terminal = (v == 0) | (v == routine.vertices() - 1);
    if terminal {
        return true;
    }
    remaps(routine, v)
}

// The references of vertex v, which has no labels: their records, and the stamps of the current copies. Returns the bytes written.
fn refer(
    routine: &Routine,
    v: usize,
    step: usize,
    versions: &[u8; ArrayRecord::MAX],
    stamps: &mut [u16; ArrayRecord::MAX],
    out: &mut [u8],
) -> usize
    requires v_bound { (v < vertices routine.now.bytes) × (step ≤ 4096) }
    requires unlabelled { Unlabelled routine.now.bytes v }
    requires stamps_len { length stamps.old ≡ 8 }
    requires stamps_in_bounds { length (row_bytes routine.now.bytes v step versions.now stamps.old) ≤ length out.old }
    ensures { Referred routine.now.bytes v step versions.now stamps.old out.old result stamps.new out.new }
{
    let row = routine.row(v);
    let mut bytes = 0;
    for a in 0..routine.arrays() {
        let x = Action::from(row[a]);
        bytes += report::put(x, step, a, versions[a], stamps[a], &mut out[bytes..]);
        stamps[a] = state::stamp_after(x, step as u16, stamps[a]);
    }
    bytes
}

// What a vertex leaves before its labels: the bytes written, and whether it may have labels.
#[derive(Clone, Copy)]
struct Row {
    bytes: usize,
    labels: bool,
}

// The references of vertex v, if it has no labels.
fn serve(
    routine: &Routine,
    v: usize,
    step: usize,
    versions: &[u8; ArrayRecord::MAX],
    stamps: &mut [u16; ArrayRecord::MAX],
    out: &mut [u8],
) -> Row
    requires v_bound { (v < vertices routine.now.bytes) × (step ≤ 4096) }
    requires stamps_len { length stamps.old ≡ 8 }
    requires stamps_in_bounds { length (row_bytes routine.now.bytes v step versions.now stamps.old) ≤ length out.old }
    ensures referred { Referred routine.now.bytes v step versions.now stamps.old out.old result.bytes stamps.new out.new }
    ensures labels { Labels routine.now.bytes v result.labels }
{
    let labels = has_labels(routine, v);
    if labels {
        return Row { bytes: 0, labels };
    }
    let bytes = refer(routine, v, step, versions, stamps, out);
    Row { bytes, labels }
}

// One array's state after its label at vertex v, if it has one, and the exit.
fn relabel(
    routine: &Routine,
    letters: &[u8],
    kept: &[Set],
    a: usize,
    v: usize,
    c: Carried,
    others: &mut [u16; state::STAMPS],
) -> Carried
    requires a_bound { (a < arrays routine.now.bytes) × (v < vertices routine.now.bytes) }
    requires letters_and_kept { LettersAndKept routine.now.bytes letters.now kept.now }
    requires others_len { length others.old ≡ 8 * width }
    requires visits { Visits (event routine.now.bytes a v) c }
    ensures { RelabelledAt routine.now.bytes a v c others.old result others.new }
{
    let r = routine.array(a);
    let x = routine.event(a, v);
    let place = flow::COLUMNS * v + a;
    let labelled = state::relabelled(c, others, a, x, letters[place], kept[place]);
    let own = WIDTH * a + r.initial as usize;
    state::leave(labelled, r, others[own], v == routine.vertices() - 1)
}

// The states with the stamps of their current copies in them.
fn settle_all(
    states: [Carried; ArrayRecord::MAX],
    m: usize,
    stamps: [u16; ArrayRecord::MAX],
) -> [Carried; ArrayRecord::MAX]
    requires { m ≤ 8 }
    ensures { result ≡ replaced states 0 (λ b. carrying (get_or stamps b 0) (carried_of states b)) m }
{
    let mut new = states;
    for a in 0..m {
        new[a] = state::with_stamp(new[a], stamps[a]);
    }
    new
}

// Follows the path and writes the records at the front of what is lent; returns the last states.
fn follow(
    routine: &Routine,
    path: &[u8],
    letters: &[u8],
    kept: &[Set],
    out: &mut [u8],
) -> [Carried; ArrayRecord::MAX]
    requires path_checked { path_check routine.now.bytes path.now ≡ Ok tt }
    requires letters_and_kept { LettersAndKept routine.now.bytes letters.now kept.now }
    requires path_in_bounds { length (records_bytes (run_records routine.now.bytes path.now)) ≤ length out.old }
    ensures by_index { (a : ℕ) → a < arrays routine.now.bytes → Reported (state_after routine.now.bytes path.now a (steps path.now)) (carried_of result a) }
    ensures out_after { out.new ≡ wrote out.old (records_bytes (run_records routine.now.bytes path.now)) }
{
    let mut versions = [0u8; ArrayRecord::MAX];
    let mut stamps = [0u16; ArrayRecord::MAX];
    let mut others = [0u16; state::STAMPS];
    let mut states = start_all(routine, &mut versions, &mut stamps);
    let m = routine.arrays();
    let mut at = 0;
    for i in 0..path::count(path) {
        let v = path::vertex(path, i);
        let row = serve(routine, v, i + 1, &versions, &mut stamps, &mut out[at..]);
        at += row.bytes;
        if !row.labels {
            continue;
        }
        for a in 0..m {
            let s = states[a];
            let stamp = stamps[a];
            let c = state::with_stamp(s, stamp);
            let next = relabel(routine, letters, kept, a, v, c, &mut others);
            versions[a] = next.current;
            stamps[a] = next.stamp;
            states[a] = next;
        }
    }
    settle_all(states, m, stamps)
}

// Writes the records, `records` bytes, and then the counts of the edges at the front of what is lent; returns the last states.
fn write_behind(
    routine: &Routine,
    path: &[u8],
    letters: &[u8],
    kept: &[Set],
    taken: &[u16],
    records: usize,
    out: &mut [u8],
) -> [Carried; ArrayRecord::MAX]
    requires path_checked { path_check routine.now.bytes path.now ≡ Ok tt }
    requires letters_and_kept { LettersAndKept routine.now.bytes letters.now kept.now }
    requires passes_counted { taken.now ≡ table (passes_of routine.now.bytes path.now) (edges routine.now.bytes) }
    requires records_length { records ≡ length (records_bytes (run_records routine.now.bytes path.now)) }
    requires out_room { records + 2 * edges routine.now.bytes ≤ length out.old }
    ensures by_index { (a : ℕ) → a < arrays routine.now.bytes → Reported (state_after routine.now.bytes path.now a (steps path.now)) (carried_of result a) }
    ensures out_after { out.new ≡ wrote out.old (records_bytes (run_records routine.now.bytes path.now) ++ counts routine.now.bytes path.now) }
{
    report::write_counts(taken, &mut out[records..]);
    follow(routine, path, letters, kept, out)
}

// Writes the report, `size` bytes. `taken` holds how often each edge is passed.
pub fn write(
    routine: &Routine,
    path: &[u8],
    letters: &[u8],
    kept: &[Set],
    taken: &[u16],
    size: usize,
    out: &mut [u8],
)
    requires path_checked { path_check routine.now.bytes path.now ≡ Ok tt }
    requires letters_and_kept { LettersAndKept routine.now.bytes letters.now kept.now }
    requires passes_counted { taken.now ≡ table (passes_of routine.now.bytes path.now) (edges routine.now.bytes) }
    requires is_length { size ≡ report_length routine.now.bytes path.now }
    requires out_room { size ≤ length out.old }
    ensures { out.new ≡ wrote out.old (report_bytes routine.now.bytes path.now) }
{
    let m = routine.arrays();
    let at = report::ENTRY * m;
    let records = size - at - report::COUNT * routine.edges();
    let states = write_behind(routine, path, letters, kept, taken, records, &mut out[at..]);
    report::write_entries(states, m, out);
}

// The plan's contents: for each vertex the index of its first label and how many (document 01, "Plan and report").
ghost use Rattle.std.specs.Prelude.{◌≡◌, cond, ◌+◌, ◌*◌, ◌≤◌, ◌<◌, eqb, length, get_or};
ghost use Rattle.passes.specs.Tables.{Versions};
ghost use Rattle.planbytes.specs.Plan.{labels_at, label_count, contents};
ghost use Rattle.planbytes.specs.Tables.{Firsts};
ghost use Rattle.routine.specs.Layout.{arrays, vertices};
ghost use Rattle.words.specs.Tables.{wrote};

use crate::label::Label;
use labels::read::Routine;
use routine::header::Header;
use sets::Set;

// Bytes of an entry of the contents, and of mark and counts before it.
pub const ENTRY: usize = 4;

pub const HEAD: usize = 8;

// 1 where a cell that counts has a version, else 0.
fn label_at(versions: &[Set], at: usize, counts: bool) -> usize
    requires { at < length versions.now }
    ensures { result ≡ cond (eqb (get_or versions.now at 0) 0) 0 (cond counts 1 0) }
{
    if versions[at] == 0 {
        return 0;
    }
    if counts {
        return 1;
    }
    0
}

// How many labels vertex v has, of m arrays. It looks at all eight cells, so that the compiler makes one vector of them; those of columns
// beyond the last array do not count.
fn labels_at(routine: &Routine, m: usize, v: usize, versions: &[Set]) -> usize
    requires m_value { m ≡ arrays routine.now.bytes }
    requires versions { Versions routine.now.bytes versions.now }
    requires v_bound { v < vertices routine.now.bytes }
    ensures value { result ≡ labels_at routine.now.bytes v }
    ensures upper_bound { result ≤ 8 }
{
    let mut count = 0;
    for a in 0..flow::COLUMNS {
        count += label_at(versions, flow::COLUMNS * v + a, a < m);
    }
    count
}

// How many labels the routine has. Fills in the index of each vertex's first label, and behind the last vertex their number.
pub fn label_count(routine: &Routine, versions: &[Set], firsts: &mut [u16]) -> usize
    requires versions { Versions routine.now.bytes versions.now }
    requires file_in_bounds { vertices routine.now.bytes < length firsts.old }
    ensures firsts { Firsts routine.now.bytes firsts.new }
    ensures value { result ≡ label_count routine.now.bytes }
    ensures upper_bound { result ≤ 2048 }
{
    let n = routine.vertices();
    // asked once: which cells count is then worked out once, too
    let m = routine.arrays();
    let mut count = 0;
    for v in 0..n {
        firsts[v] = count as u16;
        count += labels_at(routine, m, v, versions);
    }
    firsts[n] = count as u16;
    count
}

// The same number, from the table that was filled in.
pub fn total(routine: &Routine, firsts: &[u16]) -> usize
    requires firsts { Firsts routine.now.bytes firsts.now }
    ensures { result ≡ label_count routine.now.bytes }
{
    let n = routine.vertices();
    firsts[n] as usize
}

// The length of the plan of a routine that has so many labels.
pub fn plan_length(h: Header, count: usize) -> usize
    requires { (h.vertices ≤ 256) × (count ≤ 2048) }
    ensures { result ≡ 8 + 4 * h.vertices + 12 * count }
{
    HEAD + ENTRY * h.vertices + Label::SIZE * count
}

// Writes the contents at the front of what is lent.
pub fn write(routine: &Routine, firsts: &[u16], out: &mut [u8])
    requires firsts { Firsts routine.now.bytes firsts.now }
    requires file_in_bounds { 4 * vertices routine.now.bytes ≤ length out.old }
    ensures { out.new ≡ wrote out.old (contents routine.now.bytes) }
{
    for v in 0..routine.vertices() {
        let first = firsts[v] as usize;
        let count = firsts[v + 1] as usize - first;
        let at = ENTRY * v;
        words::write_pair(&mut out[at..], first, count);
    }
}

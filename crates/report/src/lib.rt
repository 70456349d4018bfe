// The report: the entries of the arrays, the records, and how many references a vertex has (document 01, "Plan and report"); the counts of the
// edges (document 02, request 8).
#![tactic(auto)]

pub mod record;

ghost use Rattle.std.specs.Prelude.{◌≡◌, cond, ◌*◌, ◌<◌, ◌≤◌, length};
ghost use Rattle.labels.specs.Events.{event};
ghost use Rattle.routine.specs.Actions.{is_reference};
ghost use Rattle.routine.specs.Layout.{arrays, vertices};
ghost use Rattle.report.specs.Bytes.{entry_bytes, entries_of, record_bytes, records_bytes, counts_of};
ghost use Rattle.report.specs.Records.{kind_of, record_of, records_at};
ghost use Rattle.report.specs.References.{references_at};
ghost use Rattle.state.specs.Carrying.{bare};
ghost use Rattle.words.specs.Tables.{table, wrote};
ghost use Rattle.words.specs.Words.{bytes16};

use crate::record::Record;
use labels::read::Routine;
use routine::action::{Access, Action};
use routine::array::ArrayRecord;
use state::Carried;

// Bytes of an array's entry.
pub const ENTRY: usize = 8;

// Bytes of an edge's count.
pub const COUNT: usize = 2;

// Whether vertex v refers to array a, 1 or 0.
fn reference_at(routine: &Routine, a: usize, v: usize) -> usize
    requires v_bound { v < vertices routine.now.bytes }
    requires a_bound { a < arrays routine.now.bytes }
    ensures { result ≡ cond (is_reference (event routine.now.bytes a v)) 1 0 }
{
    let reference = routine.event(a, v).is_reference();
    if reference {
        return 1;
    }
    0
}

// How many arrays vertex v refers to.
fn references_at(routine: &Routine, v: usize) -> usize
    requires v_bound { v < vertices routine.now.bytes }
    ensures value { result ≡ references_at routine.now.bytes v }
    ensures upper_bound { result ≤ 8 }
{
    let mut count = 0;
    for a in 0..routine.arrays() {
        count += reference_at(routine, a, v);
    }
    count
}

// How many references each vertex has.
pub fn fill(routine: &Routine, counts: &mut [u8])
    requires counts_len { length counts.old ≡ vertices routine.now.bytes }
    ensures { counts.new ≡ table (references_at routine.now.bytes) (vertices routine.now.bytes) }
{
    for v in 0..routine.vertices() {
        counts[v] = references_at(routine, v) as u8;
    }
}

// Writes the entry of one array at the front of what is lent.
fn write_entry(out: &mut [u8], s: Carried)
    requires { 8 ≤ length out.old }
    ensures { out.new ≡ wrote out.old (entry_bytes (bare s)) }
{
    words::write16(out, s.copies as usize);
    words::write32(&mut out[2..], s.live);
    out[6] = s.current;
    out[7] = 0;
}

// Writes the entries of the first m arrays at the front of what is lent.
pub fn write_entries(states: [Carried; ArrayRecord::MAX], m: usize, out: &mut [u8])
    requires m_bound { m ≤ 8 }
    requires m_in_bounds { 8 * m ≤ length out.old }
    ensures { out.new ≡ wrote out.old (entries_of states m) }
{
    for a in 0..m {
        let at = ENTRY * a;
        write_entry(&mut out[at..], states[a]);
    }
}

// The byte that stands for an access.
fn kind_byte(access: Access) -> u8
    ensures { result ≡ kind_of access }
{
    match access {
        Access::Read => 1,
        Access::Define => 2,
        Access::Modify => 3,
        Access::Kill => 4,
    }
}

// Writes a record at the front of what is lent.
fn write_record(out: &mut [u8], r: Record)
    requires { 10 ≤ length out.old }
    ensures { out.new ≡ wrote out.old (record_bytes r) }
{
    words::write16(out, r.step as usize);
    out[2] = r.array;
    out[3] = r.version;
    out[4] = kind_byte(r.access);
    out[5] = 0;
    words::write_pair(&mut out[6..], r.seen as usize, r.new as usize);
}

// The record of a reference.
fn made(x: Access, step: u16, array: u8, version: u8, stamp: u16) -> Record
    ensures { result ≡ record_of x step array version stamp }
{
    match x {
        Access::Read => Record {
            step,
            array,
            version,
            access: Access::Read,
            seen: stamp,
            new: 0,
        },
        Access::Define => Record {
            step,
            array,
            version,
            access: Access::Define,
            seen: 0,
            new: step,
        },
        Access::Modify => Record {
            step,
            array,
            version,
            access: Access::Modify,
            seen: stamp,
            new: step,
        },
        Access::Kill => Record {
            step,
            array,
            version,
            access: Access::Kill,
            seen: 0,
            new: 0,
        },
    }
}

// Writes the record of an event, if it is a reference, and returns how many bytes that is.
pub fn put(x: Action, step: usize, a: usize, version: u8, stamp: u16, out: &mut [u8]) -> usize
    requires step_bound { (step ≤ 4096) × (a < 8) }
    requires stamp_in_bounds { length (records_bytes (records_at x step a version stamp)) ≤ length out.old }
    ensures value { result ≡ length (records_bytes (records_at x step a version stamp)) }
    ensures out_after { out.new ≡ wrote out.old (records_bytes (records_at x step a version stamp)) }
{
    match x {
        Action::Nothing => 0,
        Action::Reference(access) => {
            write_record(out, made(access, step as u16, a as u8, version, stamp));
            Record::SIZE
        }
        Action::Remap(_) => 0,
        Action::Unknown => 0,
    }
}

// Writes counts at the front of what is lent.
pub fn write_counts(counts: &[u16], out: &mut [u8])
    requires counts_len_bound { length counts.now ≤ 65535 }
    requires counts_in_bounds { 2 * length counts.now ≤ length out.old }
    ensures { out.new ≡ wrote out.old (counts_of counts.now) }
{
    for i in 0..counts.len() {
        let at = COUNT * i;
        words::write16(&mut out[at..], counts[i] as usize);
    }
}

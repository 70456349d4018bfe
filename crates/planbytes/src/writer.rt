// Writing the plan: mark and counts, contents, labels by vertex, then array (document 01, "Plan and report").
ghost use Rattle.std.specs.Prelude.{◌≡◌, true, ℕ, ◌+◌, ◌*◌, ◌≤◌, ◌<◌, length, get_or};
ghost use Rattle.planbytes.specs.Plan.{plan_head, label_entry, label_row, labels, plan_bytes};
ghost use Rattle.planbytes.specs.Tables.{Tabled, Firsts, Leaving, or_none};
ghost use Rattle.routine.specs.Layout.{arrays, vertices};
ghost use Rattle.words.specs.Tables.{wrote};

use crate::label::Label;
use crate::{contents, label};
use labels::letter;
use labels::read::Routine;
use sets::Set;

// Writes the mark `HPF2`, vertex count and label count.
fn write_head(out: &mut [u8], vertices: usize, labels: usize)
    requires in_bounds { 8 ≤ length out.old }
    requires vertices_bound { (vertices < 65536) × (labels < 65536) }
    ensures { out.new ≡ wrote out.old (plan_head vertices labels) }
{
    let at = words::bytes::copy(b"HPF2", out);
    words::write_pair(&mut out[at..], vertices, labels);
}

// The leaving version of a label whose version is this set.
fn leaving(version: Set, letter: u8) -> Option<u8>
    requires { 0 < version }
    ensures { Leaving version letter (or_none result) }
{
    if letter::leaves(letter) {
        Some(sets::lowest(version))
    } else {
        None
    }
}

// Writes the label of array a at vertex v, if there is one, and returns how many bytes that is.
fn write_label(
    routine: &Routine,
    a: usize,
    v: usize,
    versions: &[Set],
    letters: &[u8],
    reaching: &[Set],
    kept: &[Set],
    out: &mut [u8],
) -> usize
    requires v_bound { v < vertices routine.now.bytes }
    requires a_bound { a < arrays routine.now.bytes }
    requires tabled { Tabled routine.now.bytes versions.now letters.now reaching.now kept.now }
    requires v_in_bounds { length (label_entry routine.now.bytes a v) ≤ length out.old }
    ensures value { result ≡ length (label_entry routine.now.bytes a v) }
    ensures out_after { out.new ≡ wrote out.old (label_entry routine.now.bytes a v) }
{
    let at = flow::COLUMNS * v + a;
    let version = versions[at];
    if version == 0 {
        return 0;
    }
    let letter = letters[at];
    let l = Label {
        array: a as u8,
        letter,
        leaving: leaving(version, letter),
        reaching: reaching[at],
        kept: kept[at],
    };
    label::write(out, l);
    Label::SIZE
}

// Whether no cell of vertex v has a version. One test for all eight.
fn is_unlabelled(versions: &[Set], v: usize) -> bool
    requires { 8 * v + 8 ≤ length versions.now }
    ensures { result ≡ true → (a : ℕ) → a < 8 → get_or versions.now (8 * v + a) 0 ≡ 0 }
{
    let mut all: Set = 0;
    for a in 0..flow::COLUMNS {
        all = all | versions[flow::COLUMNS * v + a];
    }
    all == 0
}

// Writes the labels of vertex v, and returns how many bytes these are. Most vertices have none.
fn write_row(
    routine: &Routine,
    v: usize,
    versions: &[Set],
    letters: &[u8],
    reaching: &[Set],
    kept: &[Set],
    out: &mut [u8],
) -> usize
    requires v_bound { v < vertices routine.now.bytes }
    requires tabled { Tabled routine.now.bytes versions.now letters.now reaching.now kept.now }
    requires v_in_bounds { length (label_row routine.now.bytes v) ≤ length out.old }
    ensures value { result ≡ length (label_row routine.now.bytes v) }
    ensures out_after { out.new ≡ wrote out.old (label_row routine.now.bytes v) }
{
    if is_unlabelled(versions, v) {
        return 0;
    }
    let mut at = 0;
    for a in 0..routine.arrays() {
        at += write_label(
            routine,
            a,
            v,
            versions,
            letters,
            reaching,
            kept,
            &mut out[at..],
        );
    }
    at
}

// Writes all labels at the front of what is lent.
fn write_labels(
    routine: &Routine,
    versions: &[Set],
    letters: &[u8],
    reaching: &[Set],
    kept: &[Set],
    out: &mut [u8],
)
    requires tabled { Tabled routine.now.bytes versions.now letters.now reaching.now kept.now }
    requires file_in_bounds { length (labels routine.now.bytes) ≤ length out.old }
    ensures { out.new ≡ wrote out.old (labels routine.now.bytes) }
{
    let mut at = 0;
    for v in 0..routine.vertices() {
        at += write_row(
            routine,
            v,
            versions,
            letters,
            reaching,
            kept,
            &mut out[at..],
        );
    }
}

// Writes the plan.
pub fn write(
    routine: &Routine,
    versions: &[Set],
    letters: &[u8],
    reaching: &[Set],
    kept: &[Set],
    firsts: &[u16],
    out: &mut [u8],
)
    requires firsts { Firsts routine.now.bytes firsts.now }
    requires tabled { Tabled routine.now.bytes versions.now letters.now reaching.now kept.now }
    requires file_in_bounds { length (plan_bytes routine.now.bytes) ≤ length out.old }
    ensures { out.new ≡ wrote out.old (plan_bytes routine.now.bytes) }
{
    let n = routine.vertices();
    write_head(out, n, contents::total(routine, firsts));
    contents::write(routine, firsts, &mut out[contents::HEAD..]);
    let at = contents::HEAD + contents::ENTRY * n;
    write_labels(routine, versions, letters, reaching, kept, &mut out[at..]);
}

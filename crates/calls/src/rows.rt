// The rows of the expanded routine (document 02, request 3): a call row becomes three, any other is copied.
ghost use Rattle.std.specs.Prelude.{◌≡◌, cond, ◌*◌, ◌≤◌, ◌<◌, length};
ghost use Rattle.routine.specs.Actions.{is_call, action_byte};
ghost use Rattle.routine.specs.Layout.{arrays, vertices};
ghost use Rattle.sets.specs.Sets.{width};
ghost use Rattle.words.specs.Tables.{rows, wrote};
ghost use Rattle.calls.specs.Expanded.{expanded_byte, expanded_row};
ghost use Rattle.calls.specs.Parts.{plain, expanded_vertices};
ghost use Rattle.calls.specs.Referring.{return_version};
ghost use Rattle.calls.specs.VertexRows.{part_of, part_row, call_rows, vertex_rows};
ghost use Rattle.calls.specs.Writing.{Firsts, Arrivals};

use crate::{edges, references};
use labels::read::Routine;
use routine::action;
use sets::Set;

// A row of those that a call becomes: the remaps to the versions in which it passes the arrays, its references, and the remaps back.
#[derive(Clone, Copy)]
enum Row {
    Passing,
    Calling,
    Returning,
}

// The action byte of array a at vertex v.
fn action_byte(routine: &Routine, a: usize, v: usize) -> u8
    requires v_bound { v < vertices routine.now.bytes }
    requires a_bound { a < arrays routine.now.bytes }
    ensures { result ≡ action_byte routine.now.bytes a v }
{
    routine.row(v)[a]
}

// This byte where b is a call's, and so passes the array, else 00.
fn if_passed(b: u8, byte: u8) -> u8
    ensures { result ≡ cond (is_call b) byte 0x00 }
{
    let call = action::is_call(b);
    if call {
        return byte;
    }
    0x00
}

// The version of array a that the source names before the call at v: the one that arrives, or the initial one if none does.
fn return_version(routine: &Routine, a: usize, v: usize, arrivals: &[Set]) -> u8
    requires arrivals { Arrivals routine.now.bytes arrivals.now }
    requires v_bound { v < vertices routine.now.bytes }
    requires a_bound { a < arrays routine.now.bytes }
    ensures value { result ≡ return_version routine.now.bytes a v }
    ensures upper_bound { result < width }
{
    let arriving = arrivals[flow::COLUMNS * v + a];
    if arriving == 0 {
        return routine.array(a).initial;
    }
    sets::lowest(arriving)
}

// The byte of array a in a row of the call at v.
fn expanded_byte(routine: &Routine, a: usize, v: usize, row: Row, arrivals: &[Set]) -> u8
    requires arrivals { Arrivals routine.now.bytes arrivals.now }
    requires v_bound { v < vertices routine.now.bytes }
    requires a_bound { a < arrays routine.now.bytes }
    ensures { result ≡ expanded_byte routine.now.bytes a (part_of row v) }
{
    let b = action_byte(routine, a, v);
    match row {
        Row::Passing => if_passed(b, 0x40 + b % 32),
        Row::Calling => if_passed(b, references::intent_byte(b)),
        Row::Returning => if_passed(b, 0x40 + return_version(routine, a, v, arrivals)),
    }
}

// Writes a row of the call at v at the front of what is lent.
fn write_row(routine: &Routine, v: usize, row: Row, arrivals: &[Set], out: &mut [u8])
    requires arrivals { Arrivals routine.now.bytes arrivals.now }
    requires v_bound { v < vertices routine.now.bytes }
    requires file_in_bounds { arrays routine.now.bytes ≤ length out.old }
    ensures { out.new ≡ wrote out.old (part_row routine.now.bytes (part_of row v)) }
{
    for a in 0..routine.arrays() {
        out[a] = expanded_byte(routine, a, v, row, arrivals);
    }
}

// Writes the three rows of the call at v at the front of what is lent.
fn write_call(routine: &Routine, v: usize, arrivals: &[Set], out: &mut [u8])
    requires arrivals { Arrivals routine.now.bytes arrivals.now }
    requires v_bound { v < vertices routine.now.bytes }
    requires file_in_bounds { 3 * arrays routine.now.bytes ≤ length out.old }
    ensures { out.new ≡ wrote out.old (call_rows routine.now.bytes v) }
{
    let m = routine.arrays();
    let last = 2 * m;
    write_row(routine, v, Row::Passing, arrivals, out);
    write_row(routine, v, Row::Calling, arrivals, &mut out[m..]);
    write_row(routine, v, Row::Returning, arrivals, &mut out[last..]);
}

// Writes the row of vertex v, which is no call, at the front of what is lent.
fn write_plain(routine: &Routine, v: usize, out: &mut [u8])
    requires v_bound { v < vertices routine.now.bytes }
    requires file_in_bounds { arrays routine.now.bytes ≤ length out.old }
    ensures { out.new ≡ wrote out.old (part_row routine.now.bytes (plain v)) }
{
    words::bytes::copy(routine.row(v), out);
}

// Writes the rows of what vertex v becomes, and returns how many bytes these are.
fn write_vertex(
    routine: &Routine,
    arrivals: &[Set],
    firsts: &[u16],
    v: usize,
    out: &mut [u8],
) -> usize
    requires arrivals { Arrivals routine.now.bytes arrivals.now }
    requires firsts { Firsts routine.now.bytes firsts.now }
    requires file_bound { expanded_vertices routine.now.bytes ≤ 256 }
    requires v_bound { v < vertices routine.now.bytes }
    requires v_in_bounds { length (vertex_rows routine.now.bytes v) ≤ length out.old }
    ensures value { result ≡ length (vertex_rows routine.now.bytes v) }
    ensures out_after { out.new ≡ wrote out.old (vertex_rows routine.now.bytes v) }
{
    let call = edges::is_call(routine.bytes(), firsts, v);
    if call {
        write_call(routine, v, arrivals, out);
        return 3 * routine.arrays();
    }
    write_plain(routine, v, out);
    routine.arrays()
}

// Writes the rows of the expanded routine at the front of what is lent.
pub fn write(routine: &Routine, arrivals: &[Set], firsts: &[u16], out: &mut [u8])
    requires arrivals { Arrivals routine.now.bytes arrivals.now }
    requires firsts { Firsts routine.now.bytes firsts.now }
    requires file_bound { expanded_vertices routine.now.bytes ≤ 256 }
    requires file_in_bounds { expanded_vertices routine.now.bytes * arrays routine.now.bytes ≤ length out.old }
    ensures { out.new ≡ wrote out.old (rows (expanded_row routine.now.bytes) (expanded_vertices routine.now.bytes)) }
{
    let mut at = 0;
    for v in 0..routine.vertices() {
        at += write_vertex(routine, arrivals, firsts, v, &mut out[at..]);
    }
}

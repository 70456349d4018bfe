// The expanded routine: contents and array records, rows, edges (document 02, request 3).
ghost use Rattle.std.specs.Prelude.{◌≡◌, ◌++◌, ◌+◌, ◌*◌, ◌≤◌, ◌<◌, length};
ghost use Rattle.routine.specs.Layout.{arrays, edges, header_of};
ghost use Rattle.routine.specs.Reader.{Limits};
ghost use Rattle.words.specs.Tables.{wrote};
ghost use Rattle.words.specs.Words.{bytes16};
ghost use Rattle.calls.specs.Expanded.{expanded};
ghost use Rattle.calls.specs.Interfaces.{Interfaces};
ghost use Rattle.calls.specs.Parts.{expanded_vertices};
ghost use Rattle.calls.specs.Writing.{Firsts, Arrivals, head_bytes};

use crate::{edges, rows};
use labels::read::Routine;
use routine::header::Header;
use sets::Set;

// Bytes of the longest: 18 + 4 * 8 + 256 * 8 + 4 * 1,192.
pub const MAX_SIZE: usize = 6866;

// Where its own counts stand: up to there it has the file's bytes.
const COUNTS: usize = 12;

// Writes how many vertices, where the edges stand, how many edges.
fn write_counts(out: &mut [u8], vertices: usize, offset: usize, edges: usize)
    requires in_bounds { 6 ≤ length out.old }
    requires vertices_bound { (vertices < 65536) × (offset < 65536) × (edges < 65536) }
    ensures { out.new ≡ wrote out.old (bytes16 vertices ++ (bytes16 offset ++ bytes16 edges)) }
{
    words::write16(out, vertices);
    words::write_pair(&mut out[2..], offset, edges);
}

// Writes contents and array records of an expanded routine with this header.
fn write_head(routine: &Routine, h: Header, out: &mut [u8])
    requires limits { Limits h }
    requires arrays_same { h.arrays ≡ arrays routine.now.bytes }
    requires in_bounds { 18 + 4 * h.arrays ≤ length out.old }
    ensures { out.new ≡ wrote out.old (head_bytes routine.now.bytes h) }
{
    let file = routine.bytes();
    words::bytes::copy(&file[..COUNTS], out);
    write_counts(&mut out[COUNTS..], h.vertices, h.edges_at(), h.edges);
    let end = h.actions_at();
    words::bytes::copy(&file[Header::SIZE..end], &mut out[Header::SIZE..]);
}

// Writes the expanded routine, which has so many vertices, and returns its header. The edges come first, since its contents count them.
pub fn write(
    routine: &Routine,
    arrivals: &[Set],
    firsts: &[u16],
    vertices: usize,
    out: &mut [u8],
) -> Header
    requires interfaces { Interfaces routine.now.bytes }
    requires file_bound { edges routine.now.bytes ≤ 1024 }
    requires file_bound_2 { expanded_vertices routine.now.bytes ≤ 256 }
    requires vertices_value { vertices ≡ expanded_vertices routine.now.bytes }
    requires firsts { Firsts routine.now.bytes firsts.now }
    requires arrivals { Arrivals routine.now.bytes arrivals.now }
    requires file_in_bounds { length (expanded routine.now.bytes) ≤ length out.old }
    ensures value { result ≡ header_of (expanded routine.now.bytes) }
    ensures out_after { out.new ≡ wrote out.old (expanded routine.now.bytes) }
{
    let arrays = routine.arrays();
    let at = routine.header().actions_at();
    let edges_at = at + vertices * arrays;
    let count = edges::write(routine, firsts, &mut out[edges_at..]);
    rows::write(routine, arrivals, firsts, &mut out[at..]);
    let expanded = Header {
        arrays,
        vertices,
        edges: count,
    };
    write_head(routine, expanded, out);
    expanded
}

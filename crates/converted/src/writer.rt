// Writing the converted routine.
ghost use Rattle.std.specs.Prelude.{◌≡◌, [], ◌∷◌, ◌*◌, ◌≤◌, ◌<◌, length};
ghost use Rattle.words.specs.Tables.{rows, wrote};
ghost use Rattle.directives.specs.Layout.{arrays, vertices, edges, edge_bytes};
ghost use Rattle.mappings.specs.Computed.{given_to, converted};
ghost use Rattle.mappings.specs.Converted.{array_bytes, action_for, row_bytes, head_bytes};
ghost use Rattle.mappings.specs.Tables.{VersionCounts};
ghost use Rattle.routine.specs.Layout.{header_of};
ghost use Rattle.converted.specs.Accepted.{Single};

use directives::read::Directives;
use routine::array::ArrayRecord;
use routine::header::Header as RoutineHeader;
use sets::Set;

// Bytes of the longest: 18 + 4 * 8 + 256 * 8 + 4 * 1,024.
pub const MAX_SIZE: usize = 6194;

// Mark, edition.
const MARK: usize = 6;

// Bytes of an entry of the contents.
const ENTRY: usize = 4;

// The action byte of a remapping to version 0.
const REMAP: u8 = 0x40;

// Writes mark and edition.
fn write_mark(out: &mut [u8])
    requires { 6 ≤ length out.old }
    ensures { out.new ≡ wrote out.old (72 ∷ 80 ∷ 70 ∷ 82 ∷ 1 ∷ 0 ∷ []) }
{
    let mark = b"HPFR";
    out[0] = mark[0];
    out[1] = mark[1];
    out[2] = mark[2];
    out[3] = mark[3];
    out[4] = 1;
    out[5] = 0;
}

// The header of the routine: arrays, vertices and edges keep their numbers.
pub fn header_of(directives: &Directives) -> RoutineHeader
    ensures { result ≡ header_of (converted directives.now.bytes) }
{
    RoutineHeader {
        arrays: directives.arrays(),
        vertices: directives.vertices(),
        edges: directives.edges(),
    }
}

// Writes mark, edition and contents.
fn write_head(directives: &Directives, out: &mut [u8])
    requires in_bounds { 18 ≤ length out.old }
    ensures { out.new ≡ wrote out.old (head_bytes directives.now.bytes (given_to directives.now.bytes)) }
{
    let r = header_of(directives);
    let rows_at = r.actions_at();
    let edges_at = r.edges_at();
    write_mark(out);
    words::write_pair(&mut out[MARK..], RoutineHeader::SIZE, r.arrays);
    words::write_pair(&mut out[MARK + ENTRY..], rows_at, r.vertices);
    words::write_pair(&mut out[MARK + 2 * ENTRY..], edges_at, r.edges);
}

// Writes a record: kind, number of versions, initial version 0, zero.
fn write_record(out: &mut [u8], kind: u8, versions: u8)
    requires { 4 ≤ length out.old }
    ensures { out.new ≡ wrote out.old (kind ∷ versions ∷ 0 ∷ 0 ∷ []) }
{
    out[0] = kind;
    out[1] = versions;
    out[2] = 0;
    out[3] = 0;
}

// Writes the records of all arrays.
fn write_arrays(directives: &Directives, counts: &[u8], out: &mut [u8])
    requires version_counts { VersionCounts directives.now.bytes counts.now }
    requires file_in_bounds { 4 * arrays directives.now.bytes ≤ length out.old }
    ensures { out.new
        ≡ wrote out.old (rows (array_bytes directives.now.bytes (given_to directives.now.bytes)) (arrays directives.now.bytes)) }
{
    for a in 0..directives.arrays() {
        let at = ArrayRecord::SIZE * a;
        write_record(&mut out[at..], directives.kind(a), counts[a]);
    }
}

// The action byte of array a at vertex v: a remapping where the directive gives it a version, else the byte of the file.
fn action(directives: &Directives, a: usize, v: usize, given: &[Set]) -> u8
    requires a_bound { a < arrays directives.now.bytes }
    requires v_bound { v < vertices directives.now.bytes }
    requires single { Single directives.now.bytes given.now }
    ensures { result ≡ action_for directives.now.bytes (given_to directives.now.bytes) a v (given_to directives.now.bytes a v) }
{
    let at = flow::COLUMNS * v + a;
    match given[at] {
        0 => directives.reference(v, a),
        version => REMAP + sets::lowest(version),
    }
}

// Writes the row of vertex v.
fn write_row(directives: &Directives, v: usize, given: &[Set], out: &mut [u8])
    requires v_bound { v < vertices directives.now.bytes }
    requires single { Single directives.now.bytes given.now }
    requires file_in_bounds { arrays directives.now.bytes ≤ length out.old }
    ensures { out.new ≡ wrote out.old (row_bytes directives.now.bytes (given_to directives.now.bytes) v) }
{
    for a in 0..directives.arrays() {
        out[a] = action(directives, a, v, given);
    }
}

// Writes all rows.
fn write_rows(directives: &Directives, given: &[Set], out: &mut [u8])
    requires single { Single directives.now.bytes given.now }
    requires file_in_bounds { vertices directives.now.bytes * arrays directives.now.bytes ≤ length out.old }
    ensures { out.new
        ≡ wrote out.old (rows (row_bytes directives.now.bytes (given_to directives.now.bytes)) (vertices directives.now.bytes)) }
{
    let arrays = directives.arrays();
    for v in 0..directives.vertices() {
        let at = v * arrays;
        write_row(directives, v, given, &mut out[at..]);
    }
}

// Writes the edges, which are the file's.
fn write_edges(directives: &Directives, out: &mut [u8])
    requires file_in_bounds { 4 * edges directives.now.bytes ≤ length out.old }
    ensures { out.new ≡ wrote out.old (edge_bytes directives.now.bytes) }
{
    words::bytes::copy(directives.edge_bytes(), out);
}

// Writes the routine, and returns its length.
pub fn write(directives: &Directives, given: &[Set], counts: &[u8], out: &mut [u8]) -> usize
    requires single { Single directives.now.bytes given.now }
    requires version_counts { VersionCounts directives.now.bytes counts.now }
    requires in_bounds { 6194 ≤ length out.old }
    ensures value { result ≡ length (converted directives.now.bytes) }
    ensures out_after { out.new ≡ wrote out.old (converted directives.now.bytes) }
{
    let r = header_of(directives);
    let rows_at = r.actions_at();
    let edges_at = r.edges_at();
    write_head(directives, out);
    write_arrays(directives, counts, &mut out[RoutineHeader::SIZE..]);
    write_rows(directives, given, &mut out[rows_at..]);
    write_edges(directives, &mut out[edges_at..]);
    r.end_at()
}

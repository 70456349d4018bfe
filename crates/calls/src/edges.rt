// The edges of the expanded routine: two inside each call, and each edge of the file from the last vertex of its tail to the first of
// its head; rising by from, then to (document 02, request 3). One walk over the file's vertices and edges together.
ghost use Rattle.std.specs.Prelude.{◌≡◌, ◌+◌, ◌*◌, ◌≤◌, ◌<◌, length};
ghost use Rattle.routine.specs.Edges.{edge_of};
ghost use Rattle.routine.specs.Layout.{vertices, edges};
ghost use Rattle.words.specs.Tables.{wrote};
ghost use Rattle.calls.specs.Calls.{is_call_row};
ghost use Rattle.calls.specs.Expanded.{edge, inner_edges, expanded_edges, edges_bytes};
ghost use Rattle.calls.specs.Parts.{expanded_vertices, first_vertex_of, last_of};
ghost use Rattle.calls.specs.Writing.{Firsts, Leaves, Placed, Onward};

use labels::read::Routine;
use routine::edge::Edge;

// How far the edges are written: those before the ones of this vertex, those inside it, and of those that leave it the ones before this
// edge of the file; and how many these are.
#[derive(Clone, Copy)]
pub struct Place {
    pub vertex: usize,
    pub edge: usize,
    pub count: usize,
}

// The first of the vertices that v becomes; behind the last vertex, how many there are.
fn first_of(routine: &Routine, firsts: &[u16], v: usize) -> usize
    requires firsts { Firsts routine.now.bytes firsts.now }
    requires file_bound { expanded_vertices routine.now.bytes ≤ 256 }
    requires v_bound { v ≤ vertices routine.now.bytes }
    ensures value { result ≡ first_vertex_of routine.now.bytes v }
    ensures upper_bound { result ≤ 256 }
{
    firsts[v] as usize
}

// Whether vertex v is a call: it becomes more than one. Of the file it asks no more than the table does.
pub fn is_call(file: &[u8], firsts: &[u16], v: usize) -> bool
    requires firsts { Firsts file.now firsts.now }
    requires file_bound { expanded_vertices file.now ≤ 256 }
    requires v_bound { v < vertices file.now }
    ensures { result ≡ is_call_row file.now v }
{
    let first = firsts[v] as usize;
    let next = firsts[v + 1] as usize;
    next > first + 1
}

// Writes the two edges inside vertex v if it is a call, and returns how many these are.
fn write_inner(routine: &Routine, firsts: &[u16], v: usize, out: &mut [u8]) -> usize
    requires firsts { Firsts routine.now.bytes firsts.now }
    requires file_bound { expanded_vertices routine.now.bytes ≤ 256 }
    requires v_bound { v < vertices routine.now.bytes }
    requires v_in_bounds { 4 * length (inner_edges routine.now.bytes v) ≤ length out.old }
    ensures value { result ≡ length (inner_edges routine.now.bytes v) }
    ensures out_after { out.new ≡ wrote out.old (edges_bytes (inner_edges routine.now.bytes v)) }
{
    let first = first_of(routine, firsts, v);
    let next = first_of(routine, firsts, v + 1);
    if next == first + 1 {
        return 0;
    }
    words::write_pair(out, first, first + 1);
    words::write_pair(&mut out[Edge::SIZE..], first + 1, first + 2);
    2
}

// What edge i of the file becomes.
fn outer(routine: &Routine, firsts: &[u16], i: usize) -> Edge
    requires firsts { Firsts routine.now.bytes firsts.now }
    requires file_bound { expanded_vertices routine.now.bytes ≤ 256 }
    requires i_bound { i < edges routine.now.bytes }
    ensures value { result ≡ edge (last_of routine.now.bytes (edge_of routine.now.bytes i).from) (first_vertex_of routine.now.bytes (edge_of routine.now.bytes i).to) }
    ensures from_bound { (result.from ≤ 256) × (result.to ≤ 256) }
{
    let e = routine.edge(i);
    Edge {
        from: first_of(routine, firsts, e.from + 1) - 1,
        to: first_of(routine, firsts, e.to),
    }
}

// Whether there is an edge i and it leaves v.
fn leaves(routine: &Routine, i: usize, v: usize) -> bool
    ensures { Leaves routine.now.bytes i v result }
{
    if i >= routine.edges() {
        return false;
    }
    routine.edge(i).from == v
}

// One step on: the next edge of the file if it leaves this vertex, else the edges inside the next vertex.
fn write_next(routine: &Routine, firsts: &[u16], p: Place, out: &mut [u8]) -> Place
    requires firsts { Firsts routine.now.bytes firsts.now }
    requires file_bound { expanded_vertices routine.now.bytes ≤ 256 }
    requires placed { Placed routine.now.bytes p }
    requires vertex_bound { p.vertex + 1 < vertices routine.now.bytes }
    requires file_bound_2 { 4 * length (expanded_edges routine.now.bytes) ≤ 4 * p.count + length out.old }
    ensures { Onward routine.now.bytes p result out.old out.new }
{
    if leaves(routine, p.edge, p.vertex) {
        let e = outer(routine, firsts, p.edge);
        words::write_pair(out, e.from, e.to);
        return Place {
            vertex: p.vertex,
            edge: p.edge + 1,
            count: p.count + 1,
        };
    }
    let inside = write_inner(routine, firsts, p.vertex + 1, out);
    Place {
        vertex: p.vertex + 1,
        edge: p.edge,
        count: p.count + inside,
    }
}

// Writes all edges at the front of what is lent, and returns how many these are. None is inside the entry, and none leaves the exit.
pub fn write(routine: &Routine, firsts: &[u16], out: &mut [u8]) -> usize
    requires firsts { Firsts routine.now.bytes firsts.now }
    requires file_bound { expanded_vertices routine.now.bytes ≤ 256 }
    requires file_in_bounds { 4 * length (expanded_edges routine.now.bytes) ≤ length out.old }
    ensures value { result ≡ length (expanded_edges routine.now.bytes) }
    ensures out_after { out.new ≡ wrote out.old (edges_bytes (expanded_edges routine.now.bytes)) }
{
    let n = routine.vertices();
    let mut p = Place {
        vertex: 0,
        edge: 0,
        count: 0,
    };
    // a turn goes on in either of two lists, so that no range counts the turns
    while p.vertex + 1 < n {
        let at = Edge::SIZE * p.count;
        p = write_next(routine, firsts, p, &mut out[at..]);
    }
    p.count
}

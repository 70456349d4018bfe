// The place of an edge in the list (document 02, request 8): the edges rise by from, then to, so that those from one vertex stand
// side by side, and halving finds the one among them.
ghost use Rattle.std.specs.Prelude.{◌≡◌, cond, ◌+◌, ◌<◌, leb, length};
ghost use Rattle.path.specs.Places.{Finds, RowStart, Starts};
ghost use Rattle.routine.specs.Edges.{edge_of};
ghost use Rattle.routine.specs.Layout.{vertices, edges};

use labels::read::Routine;

// Behind the edges from vertex v, the first of which stands at `start`.
fn row_end(routine: &Routine, v: usize, start: usize) -> usize
    requires row_start { RowStart routine.now.bytes v start }
    ensures { RowStart routine.now.bytes (v + 1) result }
{
    for i in start..routine.edges() {
        if routine.edge(i).from != v {
            return i;
        }
    }
    routine.edges()
}

// Fills in where the edges from each vertex start, and behind the last vertex where they end.
pub fn fill_starts(routine: &Routine, starts: &mut [u16])
    requires file_in_bounds { vertices routine.now.bytes < length starts.old }
    ensures { Starts routine.now.bytes starts.new }
{
    let n = routine.vertices();
    let mut at: usize = 0;
    for v in 0..n {
        starts[v] = at as u16;
        at = row_end(routine, v, at);
    }
    starts[n] = at as u16;
}

// Where the search goes on: `half` edges on, if the edge there does not lead beyond w.
fn onward(routine: &Routine, low: usize, half: usize, w: usize) -> usize
    requires half_bound { low + half < edges routine.now.bytes }
    ensures { result ≡ cond (leb (edge_of routine.now.bytes (low + half)).to w) (low + half) low }
{
    let mid = low + half;
    let e = routine.edge(mid);
    if e.to > w {
        return low;
    }
    mid
}

// The place of the edge from v to w, if there is one.
pub fn find(routine: &Routine, starts: &[u16], v: usize, w: usize) -> Option<usize>
    requires starts { Starts routine.now.bytes starts.now }
    ensures { Finds routine.now.bytes v w result }
{
    if v >= routine.vertices() {
        return None;
    }
    let mut low = starts[v] as usize;
    let mut size = starts[v + 1] as usize - low;
    // halved by hand: std's search is over the elements of a slice, and an edge is four bytes of the file
    while size > 1 {
        let half = size / 2;
        low = onward(routine, low, half, w);
        size -= half;
    }
    if size == 0 {
        return None;
    }
    let e = routine.edge(low);
    if e.to != w {
        return None;
    }
    Some(low)
}

// Paths over the edges of a routine, and rounds over these edges that fill in sets: bit k is in the set of a vertex if a path from it,
// through vertices that pass k, arrives at a vertex that gives k.
// A table has eight columns, one for each array that a routine may have: the set of vertex v in column a stands at 8 v + a.
#![tactic(auto)]

ghost use Rattle.std.specs.Prelude.{◌≡◌, true, false, not, ◌+◌, ◌*◌, ◌≤◌, ◌<◌, eqb, length, get_or, replicate};
ghost use Rattle.std.specs.Int.Bits.{bit_and, bit_or};
ghost use Rattle.flow.specs.Order.{Order};
ghost use Rattle.flow.specs.Paths.{edge_count};
ghost use Rattle.flow.specs.Solver.{near, far, turn, handed_row, relaxed_row, swept, row_of, noted, in_all, Recent, Tables, Advanced};
ghost use Rattle.sets.specs.Sets.{minus};
ghost use Rattle.words.specs.Tables.{table, with_row};

use sets::Half;

// Columns of a table.
pub const COLUMNS: usize = 8;

// Edges at most, the calls of a routine expanded: those of its file, and two for each of 84 calls.
pub const MAX_EDGES: usize = 1024 + 2 * 84;

// The end of edge i whose sets grow.
fn near_end(edges: &[u8], along: bool, i: usize) -> usize
    requires { i < edge_count edges.now }
    ensures { result ≡ near edges.now along i }
{
    if along {
        return words::at(edges, 4 * i);
    }
    words::at(edges, 4 * i + 2)
}

// The end that they grow from.
pub fn far_end(edges: &[u8], along: bool, i: usize) -> usize
    requires { i < edge_count edges.now }
    ensures { result ≡ far edges.now along i }
{
    if along {
        return words::at(edges, 4 * i + 2);
    }
    words::at(edges, 4 * i)
}

// The edge that a round takes as its j-th.
pub fn edge_at(order: &[u16], along: bool, j: usize) -> usize
    requires { j < length order.now }
    ensures { result ≡ turn order.now along j }
{
    if along {
        return order[order.len() - 1 - j] as usize;
    }
    order[j] as usize
}

// What the edges that were taken leave beside the sets: the vertex whose sets grew last, these sets, and a note of what was added. On a
// chain the next edge asks for these sets, and has them here without reading what was just written.
#[derive(Clone, Copy)]
pub struct Carry {
    pub vertex: usize,
    pub row: [Half; COLUMNS],
    pub note: [Half; COLUMNS],
}

// Before the first edge, over a table of so many sets: a number that no vertex has, and nothing noted.
pub fn untouched(sets: usize) -> Carry
    ensures { result ≡ record { vertex = sets; row = replicate 8 0; note = replicate 8 0 } }
{
    Carry {
        vertex: sets,
        row: [0; COLUMNS],
        note: [0; COLUMNS],
    }
}

// The same with nothing noted.
pub fn unnoted(last: Carry) -> Carry
    ensures { result ≡ record { vertex = last.vertex; row = last.row; note = replicate 8 0 } }
{
    let row = last.row;
    Carry {
        vertex: last.vertex,
        row,
        note: [0; COLUMNS],
    }
}

// The sets of vertex v.
fn row_at(sets: &[Half], v: usize) -> [Half; COLUMNS]
    requires { 8 * v + 8 ≤ length sets.now }
    ensures { result ≡ row_of sets.now v }
{
    let mut row = [0 as Half; COLUMNS];
    for a in 0..COLUMNS {
        let at = COLUMNS * v + a;
        row[a] = sets[at];
    }
    row
}

// The same, where those of the last vertex are at hand.
fn held_row(sets: &[Half], v: usize, last: Carry) -> [Half; COLUMNS]
    requires v_in_bounds { 8 * v + 8 ≤ length sets.now }
    requires recent { Recent sets.now last }
    ensures { result ≡ row_of sets.now v }
{
    if v == last.vertex {
        return last.row;
    }
    row_at(sets, v)
}

// What vertex u hands on in each column, where it holds this row: what it gives, and what it holds and passes.
fn handed(gives: &[Half], passes: &[Half], held: [Half; COLUMNS], u: usize) -> [Half; COLUMNS]
    requires u_in_bounds { 8 * u + 8 ≤ length gives.now }
    requires u_in_bounds_2 { 8 * u + 8 ≤ length passes.now }
    ensures { result
        ≡ table (λ a. bit_or (get_or gives.now (8 * u + a) 0) (bit_and (get_or held a 0) (get_or passes.now (8 * u + a) 0))) 8 }
{
    let mut row = [0 as Half; COLUMNS];
    for a in 0..COLUMNS {
        let at = COLUMNS * u + a;
        row[a] = gives[at] | (held[a] & passes[at]);
    }
    row
}

// Two rows, joined.
fn joined(held: [Half; COLUMNS], brought: [Half; COLUMNS]) -> [Half; COLUMNS]
    ensures { result ≡ table (λ a. bit_or (get_or held a 0) (get_or brought a 0)) 8 }
{
    let mut row = [0 as Half; COLUMNS];
    for a in 0..COLUMNS {
        row[a] = held[a] | brought[a];
    }
    row
}

// A note, joined with what a row brought that another did not hold.
fn noted(note: [Half; COLUMNS], brought: [Half; COLUMNS], held: [Half; COLUMNS]) -> [Half; COLUMNS]
    ensures { result ≡ table (λ a. bit_or (get_or note a 0) (minus (get_or brought a 0) (get_or held a 0))) 8 }
{
    let mut new = [0 as Half; COLUMNS];
    for a in 0..COLUMNS {
        new[a] = note[a] | (brought[a] & !held[a]);
    }
    new
}

// Puts a row in the place of vertex v's.
fn put(sets: &mut [Half], v: usize, row: [Half; COLUMNS])
    requires { 8 * v + 8 ≤ length sets.old }
    ensures { sets.new ≡ with_row sets.old v (λ a. get_or row a 0) 8 }
{
    for a in 0..COLUMNS {
        let at = COLUMNS * v + a;
        sets[at] = row[a];
    }
}

// Takes edge i: its near end's sets grow by what the far end hands on. Adds to the note what they did not have.
pub fn relax(
    edges: &[u8],
    along: bool,
    gives: &[Half],
    passes: &[Half],
    sets: &mut [Half],
    i: usize,
    last: Carry,
) -> Carry
    requires tables { Tables edges.now gives.now passes.now sets.old }
    requires i_bound { i < edge_count edges.now }
    requires recent { Recent sets.old last }
    ensures note_value { result.note ≡ noted last.note sets.old (near edges.now along i)
        (handed_row gives.now passes.now sets.old (far edges.now along i)) }
    ensures vertex_value { result.vertex ≡ near edges.now along i }
    ensures recent_2 { Recent sets.new result }
    ensures sets_after { sets.new ≡ relaxed_row edges.now along gives.now passes.now sets.old i }
{
    let near = near_end(edges, along, i);
    let far = far_end(edges, along, i);
    let brought = handed(gives, passes, held_row(sets, far, last), far);
    let held = held_row(sets, near, last);
    let row = joined(held, brought);
    put(sets, near, row);
    let before = last.note;
    let note = noted(before, brought, held);
    Carry {
        vertex: near,
        row,
        note,
    }
}

// Whether a note has anything in it.
pub fn any(note: [Half; COLUMNS]) -> bool
    ensures { result ≡ not (eqb (in_all note 8) 0) }
{
    let mut all: Half = 0;
    for a in 0..COLUMNS {
        all = all | note[a];
    }
    all != 0
}

// Takes every edge once: along its direction by falling place in the order, or against it by rising place. Says whether a set was altered.
fn sweep<const ALONG: bool>(
    edges: &[u8],
    order: &[u16],
    gives: &[Half],
    passes: &[Half],
    sets: &mut [Half],
) -> bool
    requires order { Order (edge_count edges.now) order.now }
    requires tables { Tables edges.now gives.now passes.now sets.old }
    ensures { Advanced
        (swept (relaxed_row edges.now ALONG gives.now passes.now)
        order.now ALONG sets.old (length order.now))
        sets.old result sets.new }
{
    let mut last = untouched(sets.len());
    for j in 0..order.len() {
        let i = edge_at(order, ALONG, j);
        last = relax(edges, ALONG, gives, passes, sets, i, last);
    }
    any(last.note)
}

// Takes every edge once. A loop of its own for each direction is faster than one that asks for it at each edge.
pub fn round(
    edges: &[u8],
    order: &[u16],
    along: bool,
    gives: &[Half],
    passes: &[Half],
    sets: &mut [Half],
) -> bool
    requires order { Order (edge_count edges.now) order.now }
    requires tables { Tables edges.now gives.now passes.now sets.old }
    ensures { Advanced
        (swept (relaxed_row edges.now along gives.now passes.now)
        order.now along sets.old (length order.now))
        sets.old result sets.new }
{
    if along {
        sweep::<true>(edges, order, gives, passes, sets)
    } else {
        sweep::<false>(edges, order, gives, passes, sets)
    }
}

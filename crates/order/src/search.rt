// Depth-first searches: the edges of a vertex that is finished take the highest places that are left.
ghost use Rattle.std.specs.Prelude.{true, ◌≡◌, ◌≤◌, ◌<◌, length};
ghost use Rattle.flow.specs.Order.{max_edges};
ghost use Rattle.flow.specs.Paths.{edge_count};
ghost use Rattle.order.specs.Places.{Placed};

// How the searches came to a vertex.
#[derive(Clone, Copy)]
enum Entered {
    Never,
    // one starts from it
    AsRoot,
    By(u16),
}

// An edge's number as an index.
fn number(i: u16) -> usize {
    i as usize
}

// The edge that a table has for a vertex.
fn at(table: &[u16; 256], v: u8) -> usize {
    number(table[v as usize])
}

// The first edge of each vertex that edges leave.
fn fill_starts(edges: &[u8], start: &mut [u16; 256])
    requires { edge_count edges.now ≤ max_edges }
{
    let count = edges.len() / 4;
    for j in 0..count {
        let i = count - 1 - j;
        start[crate::index(edges[4 * i])] = i as u16;
    }
}

// Puts edge i at the slot, and what stood there at the place where edge i was.
fn swap(order: &mut [u16], place: &mut [u16], slot: usize, i: usize)
    requires placed { Placed (length order.old) order.old place.old }
    requires slot_in_bounds { slot < length order.old }
    requires i_in_bounds { i < length order.old }
    ensures { Placed (length order.old) order.new place.new }
{
    let at = place[i];
    let other = order[slot];
    order[at as usize] = other;
    order[slot] = i as u16;
    place[other as usize] = at;
    place[i] = slot as u16;
}

// Whether there is an edge i and it leaves v.
fn leaves(edges: &[u8], i: usize, v: u8) -> bool
    ensures { result ≡ true → i < edge_count edges.now }
{
    if i >= edges.len() / 4 {
        return false;
    }
    edges[4 * i] == v
}

// Puts the edges of v at the slots before `slot`, and returns the lowest that is taken.
fn settle(
    edges: &[u8],
    start: &[u16; 256],
    order: &mut [u16],
    place: &mut [u16],
    v: u8,
    slot: usize,
) -> usize
    requires placed { Placed (edge_count edges.now) order.old place.old }
    requires slot_bound { slot ≤ edge_count edges.now }
    ensures placed_2 { Placed (edge_count edges.now) order.new place.new }
    ensures upper_bound { result ≤ edge_count edges.now }
{
    let mut i = at(start, v);
    for left in (0..slot).rev() {
        if !leaves(edges, i, v) {
            return left + 1;
        }
        swap(order, place, left, i);
        i += 1;
    }
    0
}

// Enters a vertex, if it is new. Says whether it was.
fn enter(entered: &mut [Entered; 256], v: u8, how: Entered) -> bool {
    let index = v as usize;
    match entered[index] {
        Entered::Never => {
            entered[index] = how;
            true
        }
        _ => false,
    }
}

// Goes on from a vertex at its edge `first`, always to a new vertex, and returns the one that no edge leads on from. Each step takes an
// edge.
fn descend(
    edges: &[u8],
    start: &[u16; 256],
    entered: &mut [Entered; 256],
    from: u8,
    first: usize,
) -> u8
    requires { edge_count edges.now ≤ max_edges }
{
    let mut v = from;
    let mut i = first;
    for step in 0..edges.len() / 4 + 1 {
        if !leaves(edges, i, v) {
            return v;
        }
        let to = edges[4 * i + 2];
        if enter(entered, to, Entered::By(i as u16)) {
            v = to;
            i = at(start, to);
            continue;
        }
        i += 1;
    }
    v
}

// Enters the first new vertex from v on, as a root.
fn enter_root(entered: &mut [Entered; 256], v: u8) -> u8 {
    for root in v as usize..256 {
        if enter(entered, root as u8, Entered::AsRoot) {
            return root as u8;
        }
    }
    v
}

// The vertex that is finished after v. At first v is the entry, which is new.
fn after(edges: &[u8], start: &[u16; 256], entered: &mut [Entered; 256], v: u8) -> u8
    requires { edge_count edges.now ≤ max_edges }
{
    if let Entered::By(edge) = entered[v as usize] {
        let i = number(edge);
        if i < edges.len() / 4 {
            return descend(edges, start, entered, edges[4 * i], i + 1);
        }
    }
    let root = enter_root(entered, v);
    descend(edges, start, entered, root, at(start, root))
}

// Searches from each vertex that is new, the entry first, until all edges are settled. Each step finishes a vertex.
fn search(
    edges: &[u8],
    start: &[u16; 256],
    entered: &mut [Entered; 256],
    order: &mut [u16],
    place: &mut [u16],
)
    requires { Placed (edge_count edges.now) order.old place.old }
    ensures { Placed (edge_count edges.now) order.new place.new }
{
    let mut slot = edges.len() / 4;
    let mut v: u8 = 0;
    for step in 0..256usize {
        v = after(edges, start, entered, v);
        slot = settle(edges, start, order, place, v, slot);
        if slot == 0 {
            return;
        }
    }
}

// Puts all edges into the order that searches find.
pub fn settle_all(edges: &[u8], order: &mut [u16], place: &mut [u16])
    requires { Placed (edge_count edges.now) order.old place.old }
    ensures { Placed (edge_count edges.now) order.new place.new }
{
    let mut start = [0u16; 256];
    fill_starts(edges, &mut start);
    let mut entered = [Entered::Never; 256];
    search(edges, &start, &mut entered, order, place);
}

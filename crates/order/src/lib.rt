// Orders in which the solver takes the edges: by their numbers, or by the place of the vertex that they leave in a reverse postorder, so
// that a round by rising place carries a fact along every path without a retreating edge.
// Vertices are below 256: the low byte of an edge's end names it.
#![tactic(auto)]

mod rising;
mod search;

ghost use Rattle.std.specs.Prelude.{◌≡◌, ◌≤◌, ◌<◌, length};
ghost use Rattle.flow.specs.Order.{Order, max_edges, natural};
ghost use Rattle.flow.specs.Paths.{edge_count};

// Puts each number at its own place.
fn identity(t: &mut [u16])
    requires { length t.old ≤ max_edges }
    ensures { t.new ≡ natural (length t.old) }
{
    for j in 0..t.len() {
        t[j] = j as u16;
    }
}

// Takes the edges by their numbers.
pub fn by_number(order: &mut [u16])
    requires { length order.old ≤ max_edges }
    ensures { Order (length order.old) order.new }
{
    identity(order);
}

// A vertex as an index.
fn index(v: u8) -> usize
    ensures { result < 256 }
{
    v as usize
}

// Takes the edges in the order that searches find.
pub fn by_search(edges: &[u8], order: &mut [u16])
    requires edges_bound { edge_count edges.now ≤ max_edges }
    requires order_len { length order.old ≡ edge_count edges.now }
    ensures { Order (edge_count edges.now) order.new }
{
    identity(order);
    let mut place = [0u16; flow::MAX_EDGES];
    identity(&mut place);
    search::settle_all(edges, order, &mut place);
}

// An order of the edges: by number if that is good enough, else by searches.
pub fn fill(edges: &[u8], order: &mut [u16])
    requires edges_bound { edge_count edges.now ≤ max_edges }
    requires order_len { length order.old ≡ edge_count edges.now }
    ensures { Order (edge_count edges.now) order.new }
{
    if rising::is_good(edges) {
        identity(order);
        return;
    }
    by_search(edges, order);
}

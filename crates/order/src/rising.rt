// Whether the edges may be taken by their numbers.
ghost use Rattle.std.specs.Prelude.{◌≡◌, ◌||◌, ◌≤◌, ◌<◌, leb, ltb};
ghost use Rattle.flow.specs.Order.{max_edges};
ghost use Rattle.flow.specs.Paths.{edge_count};
ghost use Rattle.order.specs.Falling.{is_falling};
ghost use Rattle.words.specs.Sums.{count_of};

// So few falling edges cost few rounds.
const FEW: usize = 16;

// Of so many edges the search costs more than it saves on most routines.
const MANY: usize = 768;

// Whether edge i leads to a vertex below the one that it leaves.
fn falls(edges: &[u8], i: usize) -> bool
    requires { i < edge_count edges.now }
    ensures { result ≡ is_falling edges.now i }
{
    words::at(edges, 4 * i + 2) < words::at(edges, 4 * i)
}

// How many edges fall.
fn count_falling(edges: &[u8]) -> usize
    requires { edge_count edges.now ≤ max_edges }
    ensures { result ≡ count_of (is_falling edges.now) (edge_count edges.now) }
{
    let mut count = 0;
    for i in 0..edges.len() / 4 {
        count += usize::from(falls(edges, i));
    }
    count
}

// Whether few edges fall, or there are many of them.
pub fn is_good(edges: &[u8]) -> bool
    requires { edge_count edges.now ≤ max_edges }
    ensures { result ≡ (ltb 768 (edge_count edges.now) || leb (count_of (is_falling edges.now) (edge_count edges.now)) 16) }
{
    (edges.len() / 4 > MANY) | (count_falling(edges) <= FEW)
}

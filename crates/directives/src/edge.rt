// Edges: from and to, 16 bits each.
ghost use Rattle.std.specs.Prelude.{◌≡◌, ◌+◌, ◌≤◌, ◌<◌};
ghost use Rattle.words.specs.Tables.{rows};
ghost use Rattle.directives.specs.Fields.{in_order, edge_of, rises, edge_fields};
ghost use Rattle.directives.specs.Layout.{edges, edge_at, longest};

use crate::laid::Laid;
use refusal::Refusal;
use routine::edge::Edge;

// Where edge i stands.
fn place(laid: &Laid, i: usize) -> usize
    requires { i < edges laid.now.bytes }
    ensures value { result ≡ edge_at laid.now.bytes i }
    ensures result_bound { result + 4 ≤ longest }
{
    laid.edges_at() + Edge::SIZE * i
}

// Edge i.
pub fn at(laid: &Laid, i: usize) -> Edge
    requires { i < edges laid.now.bytes }
    ensures { result ≡ edge_of laid.now.bytes i }
{
    let at = place(laid, i);
    Edge {
        from: laid.word_at(at),
        to: laid.word_at(at + 2),
    }
}

// Whether edge i stands behind the one before it.
fn rises_at(laid: &Laid, i: usize) -> bool
    requires { i < edges laid.now.bytes }
    ensures { result ≡ rises laid.now.bytes i }
{
    if i == 0 {
        return true;
    }
    at(laid, i - 1).is_before(at(laid, i))
}

// From, to, order.
fn check(laid: &Laid, i: usize) -> Result<(), Refusal>
    requires { i < edges laid.now.bytes }
    ensures { result ≡ in_order laid.now.bytes (edge_fields laid.now.bytes i) }
{
    let from_at = place(laid, i);
    let to_at = from_at + 2;
    let vertices = laid.vertices();
    let from = laid.word_at(from_at);
    let to = laid.word_at(to_at);
    laid.check(from_at, 2, from < vertices - 1)?;
    laid.check(to_at, 2, (0 < to) & (to < vertices))?;
    laid.check(from_at, 4, rises_at(laid, i))
}

pub fn check_all(laid: &Laid) -> Result<(), Refusal>
    ensures { result ≡ in_order laid.now.bytes (rows (edge_fields laid.now.bytes) (edges laid.now.bytes)) }
{
    for i in 0..laid.edges() {
        check(laid, i)?;
    }
    Ok(())
}

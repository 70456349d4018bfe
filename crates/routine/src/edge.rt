// Edges: from and to, 16 bits each; check 16 (document 01, "Routine file").
ghost use Rattle.std.specs.Prelude.{◌≡◌, ◌<◌};
ghost use Rattle.routine.specs.Edges.{ends_within, before, rises, edge_check, check16};
ghost use Rattle.routine.specs.Layout.{edges};

use crate::laid::Laid;
use refusal::Refusal;

#[derive(Clone, Copy, Debug, PartialEq, Eq)]
pub struct Edge {
    pub from: usize,
    pub to: usize,
}

impl Edge {
    // Bytes of an edge.
    pub const SIZE: usize = 4;

    // Whether this edge stands before the other: by from, then to.
    pub fn is_before(self, other: Edge) -> bool
        ensures { result ≡ before self other }
    {
        (self.from, self.to) < (other.from, other.to)
    }

    // Both ends below the vertex count; none enters the entry, none leaves the exit.
    fn has_ends(self, vertices: usize) -> bool
        ensures { result ≡ ends_within self vertices }
    {
        self.from < vertices && self.to < vertices && self.to != 0 && self.from != vertices - 1
    }
}

// Whether edge i stands after the one before it.
fn rises_at(laid: &Laid, i: usize) -> bool
    requires { i < edges laid.now.bytes }
    ensures { result ≡ rises laid.now.bytes i }
{
    i == 0 || laid.edge(i - 1).is_before(laid.edge(i))
}

fn check(laid: &Laid, i: usize) -> Result<(), Refusal>
    requires { i < edges laid.now.bytes }
    ensures { result ≡ edge_check laid.now.bytes i }
{
    let right = laid.edge(i).has_ends(laid.vertices()) & rises_at(laid, i);
    if !right {
        return Err(Refusal::WrongEdge {
            byte: laid.edge_at(i),
        });
    }
    Ok(())
}

// Check 16.
pub fn check_all(laid: &Laid) -> Result<(), Refusal>
    ensures { result ≡ check16 laid.now.bytes }
{
    for i in 0..laid.edges() {
        check(laid, i)?;
    }
    Ok(())
}

// One pass of the solver over the edges of a directive file, against the edges: facts that paths from the entry bring.
ghost use Rattle.std.specs.Prelude.{◌≡◌, false, ◌*◌, length};
ghost use Rattle.flow.specs.Cells.{Pass};
ghost use Rattle.flow.specs.Solver.{Rounds};
ghost use Rattle.halves.specs.Halves.{AreHalves, doubled};
ghost use Rattle.directives.specs.Layout.{vertices, edges, edge_bytes};
ghost use Rattle.mappings.specs.Tables.{EdgeOrder};

use directives::read::Directives;
use sets::{Half, Set};

// The order in which passes take the edges.
pub fn order(directives: &Directives, order: &mut [u16])
    requires order_len { length order.old ≡ edges directives.now.bytes }
    ensures { EdgeOrder directives.now.bytes order.new }
{
    order::fill(directives.edge_bytes(), order);
}

// Fills in the sets by what each vertex gives and passes. Returns the number of rounds.
pub fn solve(
    directives: &Directives,
    order: &[u16],
    gives: &[Half],
    passes: &[Half],
    sets: &mut [Half],
) -> usize
    requires edge_order { EdgeOrder directives.now.bytes order.now }
    requires gives_len { length gives.now ≡ 8 * vertices directives.now.bytes }
    requires passes_len { length passes.now ≡ 8 * vertices directives.now.bytes }
    requires sets_len { length sets.old ≡ 8 * vertices directives.now.bytes }
    ensures pass { Pass (edge_bytes directives.now.bytes) (vertices directives.now.bytes) false gives.now passes.now sets.new }
    ensures rounds { Rounds (edge_bytes directives.now.bytes) order.now false gives.now passes.now
        (vertices directives.now.bytes) result }
{
    solver::solve(directives.edge_bytes(), order, false, gives, passes, sets)
}

// The same for tables of sets: `sets` comes with what each vertex gives; what it passes is the same in both halves. `gives` and `halves` are
// work slices.
pub fn solve_sets(
    directives: &Directives,
    order: &[u16],
    passes: &[Half],
    sets: &mut [Set],
    gives: &mut [Half],
    halves: &mut [Half],
) -> usize
    requires edge_order { EdgeOrder directives.now.bytes order.now }
    requires passes_len { length passes.now ≡ 8 * vertices directives.now.bytes }
    requires are_halves { AreHalves passes.now }
    requires sets_len { length sets.old ≡ 8 * vertices directives.now.bytes }
    requires gives_len { length gives.old ≡ 8 * vertices directives.now.bytes }
    requires halves_len { length halves.old ≡ 8 * vertices directives.now.bytes }
    ensures pass { Pass (edge_bytes directives.now.bytes) (vertices directives.now.bytes) false sets.old (doubled passes.now)
        sets.new }
    ensures rounds { Rounds (edge_bytes directives.now.bytes) order.now false sets.old (doubled passes.now)
        (vertices directives.now.bytes) result }
{
    halves::solve(
        directives.edge_bytes(),
        order,
        false,
        passes,
        sets,
        gives,
        halves,
    )
}

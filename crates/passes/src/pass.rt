// One pass of the solver over the edges of a routine, for all arrays.
ghost use Rattle.std.specs.Prelude.{◌≡◌, ◌*◌, length};
ghost use Rattle.flow.specs.Solver.{Rounds};
ghost use Rattle.halves.specs.Halves.{AreHalves, doubled};
ghost use Rattle.labels.specs.Events.{edge_bytes};
ghost use Rattle.labels.specs.Routines.{EdgeOrder};
ghost use Rattle.passes.specs.Tables.{Pass};
ghost use Rattle.routine.specs.Layout.{vertices, edges};

use labels::read::Routine;
use sets::{Half, Set};

// A pass of so many rounds shows that the order is good.
const FEW: usize = 4;

// The order in which the first pass takes the edges.
pub fn order(routine: &Routine, order: &mut [u16])
    requires order_len { length order.old ≡ edges routine.now.bytes }
    ensures { EdgeOrder routine.now.bytes order.new }
{
    order::fill(routine.edge_bytes(), order);
}

// The edges by their numbers, for a pass whose rounds are to tell whether a search pays.
pub fn by_number(routine: &Routine, order: &mut [u16])
    requires order_len { length order.old ≡ edges routine.now.bytes }
    ensures { EdgeOrder routine.now.bytes order.new }
{
    order::by_number(order);
}

// The order in which later passes take them: by searches, where one pass took more than a few rounds.
pub fn reorder(routine: &Routine, order: &mut [u16], rounds: usize)
    requires edge_order { EdgeOrder routine.now.bytes order.old }
    ensures { EdgeOrder routine.now.bytes order.new }
{
    if rounds <= FEW {
        return;
    }
    order::by_search(routine.edge_bytes(), order);
}

// Fills in the sets by what each vertex gives and passes, along the edges or against them. Returns the number of rounds.
pub fn solve(
    routine: &Routine,
    order: &[u16],
    along: bool,
    gives: &[Half],
    passes: &[Half],
    sets: &mut [Half],
) -> usize
    requires edge_order { EdgeOrder routine.now.bytes order.now }
    requires gives_len { length gives.now ≡ 8 * vertices routine.now.bytes }
    requires passes_len { length passes.now ≡ 8 * vertices routine.now.bytes }
    requires sets_len { length sets.old ≡ 8 * vertices routine.now.bytes }
    ensures pass { Pass routine.now.bytes along gives.now passes.now sets.new }
    ensures rounds { Rounds (edge_bytes routine.now.bytes) order.now along gives.now passes.now
        (vertices routine.now.bytes) result }
{
    solver::solve(routine.edge_bytes(), order, along, gives, passes, sets)
}

// The same for tables of sets: `sets` comes with what each vertex gives; what it passes is the same in both halves. `gives` and `halves` are
// work slices.
pub fn solve_sets(
    routine: &Routine,
    order: &[u16],
    along: bool,
    passes: &[Half],
    sets: &mut [Set],
    gives: &mut [Half],
    halves: &mut [Half],
) -> usize
    requires edge_order { EdgeOrder routine.now.bytes order.now }
    requires passes_len { length passes.now ≡ 8 * vertices routine.now.bytes }
    requires are_halves { AreHalves passes.now }
    requires sets_len { length sets.old ≡ 8 * vertices routine.now.bytes }
    requires gives_len { length gives.old ≡ 8 * vertices routine.now.bytes }
    requires halves_len { length halves.old ≡ 8 * vertices routine.now.bytes }
    ensures pass { Pass routine.now.bytes along sets.old (doubled passes.now) sets.new }
    ensures rounds { Rounds (edge_bytes routine.now.bytes) order.now along sets.old (doubled passes.now)
        (vertices routine.now.bytes) result }
{
    halves::solve(
        routine.edge_bytes(),
        order,
        along,
        passes,
        sets,
        gives,
        halves,
    )
}

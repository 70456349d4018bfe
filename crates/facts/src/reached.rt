// Which vertices a path from the entry reaches.
ghost use Rattle.std.specs.Prelude.{◌≡◌, ◌*◌, ◌<◌, length};
ghost use Rattle.labels.specs.Reaching.{is_reached_over};
ghost use Rattle.directives.specs.Layout.{vertices, edge_bytes};
ghost use Rattle.mappings.specs.Tables.{EdgeOrder, Reached};
ghost use Rattle.facts.specs.Counted.{ReachedStops};

use crate::pass;
use directives::read::Directives;
use passes::reaching;
use sets::{Half, Set};

// Fills in their table. `gives` and `passes` are work slices. Returns the number of rounds.
pub fn solve(
    directives: &Directives,
    order: &[u16],
    reached: &mut [Half],
    gives: &mut [Half],
    passes: &mut [Half],
) -> usize
    requires edge_order { EdgeOrder directives.now.bytes order.now }
    requires reached_len { length reached.old ≡ 8 * vertices directives.now.bytes }
    requires gives_len { length gives.old ≡ 8 * vertices directives.now.bytes }
    requires passes_len { length passes.old ≡ 8 * vertices directives.now.bytes }
    ensures reached { Reached directives.now.bytes reached.new }
    ensures reached_stops { ReachedStops directives.now.bytes result }
{
    reaching::fill_reached(flow::COLUMNS, gives, passes);
    pass::solve(directives, order, gives, passes, reached)
}

// Whether v is the entry, or its row says that a path reaches it.
pub fn is_reached(directives: &Directives, reached: &[Half], v: usize) -> bool
    requires reached { Reached directives.now.bytes reached.now }
    requires v_bound { v < vertices directives.now.bytes }
    requires v_bound_2 { v < 256 }
    ensures { result ≡ is_reached_over (edge_bytes directives.now.bytes) (vertices directives.now.bytes) v }
{
    let at = flow::COLUMNS * v;
    (v == 0) | sets::member(reached[at] as Set, 0)
}

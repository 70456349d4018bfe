// The versions in which paths bring each array while it is aligned with template t.
ghost use Rattle.std.specs.Prelude.{◌≡◌, ◌+◌, ◌*◌, ◌<◌, length, get_or};
ghost use Rattle.flow.specs.Cells.{NoneBeyond};
ghost use Rattle.words.specs.Tables.{with_row};
ghost use Rattle.directives.specs.Directives.{directive};
ghost use Rattle.directives.specs.Layout.{arrays, vertices};
ghost use Rattle.mappings.specs.Computed.{held_sets};
ghost use Rattle.mappings.specs.Tables.{EdgeOrder, ArrayCells, Given};
ghost use Rattle.left.specs.Cells.{held_gives, held_halves};
ghost use Rattle.left.specs.Counted.{HeldStops};

use directives::read::Directives;
use directives::vertex::Directive;
use facts::{directive, pass};
use labels::event;
use sets::{Half, Set};

// What vertex v, whose directive is d and gives array a these versions, gives it with template t.
fn gives_at(directives: &Directives, t: usize, a: usize, v: usize, d: Directive, given: Set) -> Set
    requires a_bound { a < arrays directives.now.bytes }
    requires d_value { d ≡ directive directives.now.bytes v }
    requires v_bound { v < vertices directives.now.bytes }
    ensures { result ≡ held_gives directives.now.bytes t a v given }
{
    if v == 0 {
        return event::only_if(directives.alignment(a).template == t, 1);
    }
    event::only_if(directive::aligns_with(t, d), given)
}

// Both rows of vertex v.
fn fill_row(
    directives: &Directives,
    t: usize,
    v: usize,
    given: &[Set],
    gives: &mut [Set],
    passes: &mut [Half],
)
    requires v_bound { v < vertices directives.now.bytes }
    requires given { Given directives.now.bytes given.now }
    requires gives_len { length gives.old ≡ 8 * vertices directives.now.bytes }
    requires passes_len { length passes.old ≡ 8 * vertices directives.now.bytes }
    ensures gives_after { gives.new
        ≡ with_row gives.old v (λ a. held_gives directives.now.bytes t a v (get_or given.now (8 * v + a) 0)) (arrays directives.now.bytes) }
    ensures passes_after { passes.new ≡ with_row passes.old v (λ a. held_halves directives.now.bytes t a v) (arrays directives.now.bytes) }
{
    let d = directives.directive(v);
    let spread = directive::redistributes(t, d);
    for a in 0..directives.arrays() {
        let at = flow::COLUMNS * v + a;
        gives[at] = gives_at(directives, t, a, v, d, given[at]);
        passes[at] = event::every_if(!(directive::realigns(a, d) | spread));
    }
}

// The tables of the pass, where nothing stands in the columns beyond the arrays.
fn fill(directives: &Directives, t: usize, given: &[Set], gives: &mut [Set], passes: &mut [Half])
    requires given { Given directives.now.bytes given.now }
    requires gives_len { length gives.old ≡ 8 * vertices directives.now.bytes }
    requires passes_len { length passes.old ≡ 8 * vertices directives.now.bytes }
    requires none_beyond { NoneBeyond (arrays directives.now.bytes) (vertices directives.now.bytes) gives.old }
    requires none_beyond_2 { NoneBeyond (arrays directives.now.bytes) (vertices directives.now.bytes) passes.old }
    ensures array_cells { ArrayCells directives.now.bytes (λ a v. held_gives directives.now.bytes t a v (get_or given.now (8 * v + a) 0)) gives.new }
    ensures array_cells_2 { ArrayCells directives.now.bytes (held_halves directives.now.bytes t) passes.new }
    ensures none_beyond_3 { NoneBeyond (arrays directives.now.bytes) (vertices directives.now.bytes) gives.new }
    ensures none_beyond_4 { NoneBeyond (arrays directives.now.bytes) (vertices directives.now.bytes) passes.new }
{
    for v in 0..directives.vertices() {
        fill_row(directives, t, v, given, gives, passes);
    }
}

// Fills in the versions. The slices behind `held` are work slices. Returns the number of rounds.
pub fn solve(
    directives: &Directives,
    order: &[u16],
    t: usize,
    given: &[Set],
    held: &mut [Set],
    gives: &mut [Half],
    passes: &mut [Half],
    halves: &mut [Half],
) -> usize
    requires edge_order { EdgeOrder directives.now.bytes order.now }
    requires given { Given directives.now.bytes given.now }
    requires held_len { length held.old ≡ 8 * vertices directives.now.bytes }
    requires gives_len { length gives.old ≡ 8 * vertices directives.now.bytes }
    requires passes_len { length passes.old ≡ 8 * vertices directives.now.bytes }
    requires halves_len { length halves.old ≡ 8 * vertices directives.now.bytes }
    ensures array_cells { ArrayCells directives.now.bytes (λ a v. get_or (held_sets directives.now.bytes a t) v 0) held.new }
    ensures held_stops { HeldStops directives.now.bytes t result }
{
    held.fill(0);
    passes.fill(0);
    fill(directives, t, given, held, passes);
    pass::solve_sets(directives, order, passes, held, gives, halves)
}

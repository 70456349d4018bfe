// At each redistribute the versions that paths bring which it does not concern: those that bring the array aligned with another template.
ghost use Rattle.std.specs.Prelude.{◌≡◌, ◌+◌, ◌*◌, ◌≤◌, ◌<◌, length, get_or};
ghost use Rattle.std.specs.Int.Bits.{bit_or};
ghost use Rattle.words.specs.Tables.{with_row};
ghost use Rattle.directives.specs.Layout.{vertices};
ghost use Rattle.mappings.specs.Computed.{held_sets};
ghost use Rattle.mappings.specs.Tables.{EdgeOrder, ArrayCells, Given};
ghost use Rattle.left.specs.Cells.{redistributes_other, others_to, others_at};

use crate::held;
use directives::read::Directives;
use directives::vertex::Directive;
use facts::directive;
use sets::{Half, Set};

// Whether a directive redistributes another template than t.
fn redistributes_other(t: usize, d: Directive) -> bool
    ensures { result ≡ redistributes_other t d }
{
    matches!(d, Directive::Redistribute(s, _) if t != s)
}

// Joins the row of vertex v.
fn join_row(v: usize, held: &[Set], others: &mut [Set])
    requires v_bound { v < 256 }
    requires v_in_bounds { 8 * v + 8 ≤ length held.now }
    requires v_in_bounds_2 { 8 * v + 8 ≤ length others.old }
    ensures { others.new
        ≡ with_row others.old v (λ a. bit_or (get_or others.old (8 * v + a) 0) (get_or held.now (8 * v + a) 0)) 8 }
{
    for a in 0..flow::COLUMNS {
        let at = flow::COLUMNS * v + a;
        others[at] = others[at] | held[at];
    }
}

// Joins the rows of the vertices that redistribute another template than t.
fn join(directives: &Directives, t: usize, held: &[Set], others: &mut [Set])
    requires array_cells { ArrayCells directives.now.bytes (λ a v. get_or (held_sets directives.now.bytes a t) v 0) held.now }
    requires array_cells_2 { ArrayCells directives.now.bytes (others_to directives.now.bytes t) others.old }
    ensures { ArrayCells directives.now.bytes (others_to directives.now.bytes (t + 1)) others.new }
{
    for v in 0..directives.vertices() {
        if redistributes_other(t, directives.directive(v)) {
            join_row(v, held, others);
        }
    }
}

// Joins what paths bring with template t, if a directive asks for it.
fn add_template(
    directives: &Directives,
    order: &[u16],
    t: usize,
    given: &[Set],
    others: &mut [Set],
    held: &mut [Set],
    gives: &mut [Half],
    passes: &mut [Half],
    halves: &mut [Half],
)
    requires edge_order { EdgeOrder directives.now.bytes order.now }
    requires given { Given directives.now.bytes given.now }
    requires array_cells { ArrayCells directives.now.bytes (others_to directives.now.bytes t) others.old }
    requires held_len { length held.old ≡ 8 * vertices directives.now.bytes }
    requires gives_len { length gives.old ≡ 8 * vertices directives.now.bytes }
    requires passes_len { length passes.old ≡ 8 * vertices directives.now.bytes }
    requires halves_len { length halves.old ≡ 8 * vertices directives.now.bytes }
    ensures { ArrayCells directives.now.bytes (others_to directives.now.bytes (t + 1)) others.new }
{
    if directive::any(directives, |d| redistributes_other(t, d)) {
        held::solve(directives, order, t, given, held, gives, passes, halves);
        join(directives, t, held, others);
    }
}

// Fills in those of all templates. The slices behind `others` are work slices.
pub fn solve(
    directives: &Directives,
    order: &[u16],
    given: &[Set],
    others: &mut [Set],
    held: &mut [Set],
    gives: &mut [Half],
    passes: &mut [Half],
    halves: &mut [Half],
)
    requires edge_order { EdgeOrder directives.now.bytes order.now }
    requires given { Given directives.now.bytes given.now }
    requires others_len { length others.old ≡ 8 * vertices directives.now.bytes }
    requires held_len { length held.old ≡ 8 * vertices directives.now.bytes }
    requires gives_len { length gives.old ≡ 8 * vertices directives.now.bytes }
    requires passes_len { length passes.old ≡ 8 * vertices directives.now.bytes }
    requires halves_len { length halves.old ≡ 8 * vertices directives.now.bytes }
    ensures { ArrayCells directives.now.bytes (others_at directives.now.bytes) others.new }
{
    others.fill(0);
    for t in 0..directives.templates() {
        add_template(
            directives, order, t, given, others, held, gives, passes, halves,
        );
    }
}

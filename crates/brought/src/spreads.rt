// The spreads that paths bring each template with, by the vertices that gave them: vertex u in column u / width at bit u % width. The
// table has at each realign those of its template.
ghost use Rattle.std.specs.Prelude.{◌≡◌, ◌+◌, ◌*◌, ◌≤◌, ◌<◌, length, get_or};
ghost use Rattle.flow.specs.Cells.{Cells};
ghost use Rattle.words.specs.Tables.{with_row};
ghost use Rattle.directives.specs.Layout.{vertices};
ghost use Rattle.mappings.specs.Tables.{EdgeOrder, Reached, Spreads, spread_column};
ghost use Rattle.brought.specs.Cells.{realigns_with, spread_gives, spread_halves, SpreadsTo};
ghost use Rattle.brought.specs.Counted.{SpreadsAsked};

use directives::read::Directives;
use directives::vertex::Directive;
use facts::{directive, pass, reached};
use labels::event;
use sets::{Half, Set};

// Whether a directive realigns an array with template t.
fn realigns_with(t: usize, d: Directive) -> bool
    ensures { result ≡ realigns_with t d }
{
    matches!(d, Directive::Realign(_, x) if x.template == t)
}

// Both rows of vertex v, for template t.
fn fill_row(
    directives: &Directives,
    t: usize,
    v: usize,
    reached: &[Half],
    gives: &mut [Set],
    passes: &mut [Half],
)
    requires v_bound { v < vertices directives.now.bytes }
    requires reached { Reached directives.now.bytes reached.now }
    requires gives_len { length gives.old ≡ 8 * vertices directives.now.bytes }
    requires passes_len { length passes.old ≡ 8 * vertices directives.now.bytes }
    ensures gives_after { gives.new ≡ with_row gives.old v (λ c. spread_gives directives.now.bytes t c v) 8 }
    ensures passes_after { passes.new ≡ with_row passes.old v (λ c. spread_halves directives.now.bytes t v) 8 }
{
    let gave = (v == 0) | directive::redistributes(t, directives.directive(v));
    let given = reached::is_reached(directives, reached, v) & gave;
    let column = v / sets::WIDTH;
    let set = sets::single((v % sets::WIDTH) as u8);
    for c in 0..flow::COLUMNS {
        let at = flow::COLUMNS * v + c;
        gives[at] = event::only_if(given & (column == c), set);
        passes[at] = event::every_if(!gave);
    }
}

// The tables of the pass for template t.
fn fill(directives: &Directives, t: usize, reached: &[Half], gives: &mut [Set], passes: &mut [Half])
    requires reached { Reached directives.now.bytes reached.now }
    requires gives_len { length gives.old ≡ 8 * vertices directives.now.bytes }
    requires passes_len { length passes.old ≡ 8 * vertices directives.now.bytes }
    ensures cells { Cells 8 (vertices directives.now.bytes) (λ c v. spread_gives directives.now.bytes t c v) gives.new }
    ensures cells_2 { Cells 8 (vertices directives.now.bytes) (λ c v. spread_halves directives.now.bytes t v) passes.new }
{
    for v in 0..directives.vertices() {
        fill_row(directives, t, v, reached, gives, passes);
    }
}

// Copies the row of vertex v.
fn copy_row(v: usize, sets: &[Set], spreads: &mut [Set])
    requires v_bound { v < 256 }
    requires v_in_bounds { 8 * v + 8 ≤ length sets.now }
    requires v_in_bounds_2 { 8 * v + 8 ≤ length spreads.old }
    ensures { spreads.new ≡ with_row spreads.old v (λ c. get_or sets.now (8 * v + c) 0) 8 }
{
    for c in 0..flow::COLUMNS {
        let at = flow::COLUMNS * v + c;
        spreads[at] = sets[at];
    }
}

// Copies the rows of the vertices that realign an array with template t.
fn copy_asked(directives: &Directives, t: usize, sets: &[Set], spreads: &mut [Set])
    requires cells { Cells 8 (vertices directives.now.bytes) (λ c v. get_or (spread_column directives.now.bytes t c) v 0) sets.now }
    requires spreads_to { SpreadsTo directives.now.bytes t spreads.old }
    ensures { SpreadsTo directives.now.bytes (t + 1) spreads.new }
{
    for v in 0..directives.vertices() {
        if realigns_with(t, directives.directive(v)) {
            copy_row(v, sets, spreads);
        }
    }
}

// Those of template t, if a directive asks for them. Returns the number of rounds, 0 if none does.
fn solve_template(
    directives: &Directives,
    order: &[u16],
    t: usize,
    reached: &[Half],
    spreads: &mut [Set],
    sets: &mut [Set],
    gives: &mut [Half],
    passes: &mut [Half],
    halves: &mut [Half],
) -> usize
    requires edge_order { EdgeOrder directives.now.bytes order.now }
    requires reached { Reached directives.now.bytes reached.now }
    requires spreads_to { SpreadsTo directives.now.bytes t spreads.old }
    requires sets_len { length sets.old ≡ 8 * vertices directives.now.bytes }
    requires gives_len { length gives.old ≡ 8 * vertices directives.now.bytes }
    requires passes_len { length passes.old ≡ 8 * vertices directives.now.bytes }
    requires halves_len { length halves.old ≡ 8 * vertices directives.now.bytes }
    ensures spreads_to_2 { SpreadsTo directives.now.bytes (t + 1) spreads.new }
    ensures spreads_asked { SpreadsAsked directives.now.bytes t result }
{
    if !directive::any(directives, |d| realigns_with(t, d)) {
        return 0;
    }
    fill(directives, t, reached, sets, passes);
    let rounds = pass::solve_sets(directives, order, passes, sets, gives, halves);
    copy_asked(directives, t, sets, spreads);
    rounds
}

// Fills in the eight columns. The slices behind `spreads` are work slices.
pub fn solve(
    directives: &Directives,
    order: &[u16],
    reached: &[Half],
    spreads: &mut [Set],
    sets: &mut [Set],
    gives: &mut [Half],
    passes: &mut [Half],
    halves: &mut [Half],
)
    requires edge_order { EdgeOrder directives.now.bytes order.now }
    requires reached { Reached directives.now.bytes reached.now }
    requires spreads_len { length spreads.old ≡ 8 * vertices directives.now.bytes }
    requires sets_len { length sets.old ≡ 8 * vertices directives.now.bytes }
    requires gives_len { length gives.old ≡ 8 * vertices directives.now.bytes }
    requires passes_len { length passes.old ≡ 8 * vertices directives.now.bytes }
    requires halves_len { length halves.old ≡ 8 * vertices directives.now.bytes }
    ensures { Spreads directives.now.bytes spreads.new }
{
    for t in 0..directives.templates() {
        solve_template(
            directives, order, t, reached, spreads, sets, gives, passes, halves,
        );
    }
}

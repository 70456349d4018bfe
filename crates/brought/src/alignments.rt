// The alignments that paths bring each array in: bit 2 t + e for template t, exchanged e.
ghost use Rattle.std.specs.Prelude.{◌≡◌, cond, ◌*◌, ◌^◌, ◌<◌, length};
ghost use Rattle.flow.specs.Cells.{Cells, NoneBeyond};
ghost use Rattle.words.specs.Tables.{with_row};
ghost use Rattle.directives.specs.Layout.{arrays, vertices};
ghost use Rattle.mappings.specs.Along.{initial_state};
ghost use Rattle.mappings.specs.Computed.{alignment_of, code};
ghost use Rattle.mappings.specs.Tables.{EdgeOrder, Reached, Alignments};
ghost use Rattle.mappings.specs.Theorem.{Right};
ghost use Rattle.brought.specs.Cells.{align_gives, align_passes};
ghost use Rattle.brought.specs.Counted.{AlignmentsStop};

use directives::array::Alignment;
use directives::read::Directives;
use directives::vertex::Directive;
use facts::{directive, pass, reached};
use labels::event;
use sets::Half;

// All alignments: 2 for each of 8 templates.
const EVERY: Half = 0xffff;

// The alignment that a realign gives; of another vertex the initial one.
fn alignment_of(initial: Alignment, d: Directive) -> Alignment
    ensures { result ≡ alignment_of initial d }
{
    match d {
        Directive::Realign(_, x) => x,
        _ => initial,
    }
}

// An alignment as a set.
fn single(x: Alignment) -> Half
    requires { (x.template < 8) × (x.exchanged < 2) }
    ensures { result ≡ 2 ^ code x }
{
    let k = 2 * x.template + x.exchanged;
    sets::single(k as u8) as Half
}

// What a vertex whose directive is d gives array a, if it is to give an alignment.
fn given(directives: &Directives, a: usize, d: Directive, aligns: bool) -> Half
    requires a_bound { a < arrays directives.now.bytes }
    requires right { Right directives.now.bytes (alignment_of ((initial_state directives.now.bytes).aligned a) d) }
    ensures { result ≡ cond aligns (2 ^ code (alignment_of ((initial_state directives.now.bytes).aligned a) d)) 0 }
{
    if aligns {
        single(alignment_of(directives.alignment(a), d))
    } else {
        0
    }
}

// Both rows of vertex v.
fn fill_row(
    directives: &Directives,
    v: usize,
    reached: &[Half],
    gives: &mut [Half],
    passes: &mut [Half],
)
    requires v_bound { v < vertices directives.now.bytes }
    requires reached { Reached directives.now.bytes reached.now }
    requires gives_len { length gives.old ≡ 8 * vertices directives.now.bytes }
    requires passes_len { length passes.old ≡ 8 * vertices directives.now.bytes }
    ensures gives_after { gives.new ≡ with_row gives.old v (λ a. align_gives directives.now.bytes a v) (arrays directives.now.bytes) }
    ensures passes_after { passes.new ≡ with_row passes.old v (λ a. align_passes directives.now.bytes a v) (arrays directives.now.bytes) }
{
    let d = directives.directive(v);
    let is_reached = reached::is_reached(directives, reached, v);
    for a in 0..directives.arrays() {
        let at = flow::COLUMNS * v + a;
        let aligns = (v == 0) | directive::realigns(a, d);
        gives[at] = given(directives, a, d, is_reached & aligns);
        passes[at] = event::only_if(!aligns, EVERY);
    }
}

// The tables of the pass, where nothing stands in the columns of `gives` beyond the arrays.
fn fill(directives: &Directives, reached: &[Half], gives: &mut [Half], passes: &mut [Half])
    requires reached { Reached directives.now.bytes reached.now }
    requires gives_len { length gives.old ≡ 8 * vertices directives.now.bytes }
    requires passes_len { length passes.old ≡ 8 * vertices directives.now.bytes }
    requires none_beyond { NoneBeyond (arrays directives.now.bytes) (vertices directives.now.bytes) gives.old }
    ensures cells { Cells (arrays directives.now.bytes) (vertices directives.now.bytes) (align_gives directives.now.bytes) gives.new }
    ensures cells_2 { Cells (arrays directives.now.bytes) (vertices directives.now.bytes) (align_passes directives.now.bytes) passes.new }
    ensures none_beyond_2 { NoneBeyond (arrays directives.now.bytes) (vertices directives.now.bytes) gives.new }
{
    for v in 0..directives.vertices() {
        fill_row(directives, v, reached, gives, passes);
    }
}

// Fills in the alignments. `gives` and `passes` are work slices. Returns the number of rounds.
pub fn solve(
    directives: &Directives,
    order: &[u16],
    reached: &[Half],
    aligned: &mut [Half],
    gives: &mut [Half],
    passes: &mut [Half],
) -> usize
    requires edge_order { EdgeOrder directives.now.bytes order.now }
    requires reached { Reached directives.now.bytes reached.now }
    requires aligned_len { length aligned.old ≡ 8 * vertices directives.now.bytes }
    requires gives_len { length gives.old ≡ 8 * vertices directives.now.bytes }
    requires passes_len { length passes.old ≡ 8 * vertices directives.now.bytes }
    ensures alignments { Alignments directives.now.bytes aligned.new }
    ensures alignments_stop { AlignmentsStop directives.now.bytes result }
{
    gives.fill(0);
    fill(directives, reached, gives, passes);
    pass::solve(directives, order, gives, passes, aligned)
}

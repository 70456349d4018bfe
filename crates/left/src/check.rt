// Refusal 42, first by vertex, then by array.
ghost use Rattle.std.specs.Prelude.{◌≡◌, not, cond, ◌*◌, ◌<◌, eqb, length};
ghost use Rattle.std.specs.Int.Bits.{bit_or};
ghost use Rattle.directives.specs.Layout.{arrays, vertices};
ghost use Rattle.mappings.specs.Computed.{left_set, check42};
ghost use Rattle.mappings.specs.Tables.{EdgeOrder, ArrayCells, Given};
ghost use Rattle.left.specs.Cells.{others_at};
ghost use Rattle.refusal.specs.Checks.{holds, first_failed};
ghost use Rattle.refusal.specs.declared.Refusal.TheVariants.{TwoMappings};
ghost use Rattle.sets.specs.Sets.{several};

use crate::elsewhere;
use directives::read::Directives;
use refusal::Refusal;
use sets::{Half, Set};

// Whether an array that is given these versions can be left in two.
fn in_two(given: Set, others: Set) -> bool
    ensures { result ≡ several (cond (eqb given 0) 0 (bit_or given others)) }
{
    given != 0 && sets::more_than_one(given | others)
}

// The first array that the directive at vertex v can leave in two mappings.
fn check_row(
    directives: &Directives,
    v: usize,
    given: &[Set],
    others: &[Set],
) -> Result<(), Refusal>
    requires v_bound { v < vertices directives.now.bytes }
    requires given { Given directives.now.bytes given.now }
    requires array_cells { ArrayCells directives.now.bytes (others_at directives.now.bytes) others.now }
    ensures { result ≡ first_failed (λ a. holds (not (several (left_set directives.now.bytes a v))) (TwoMappings v a)) 0 (arrays directives.now.bytes) }
{
    for a in 0..directives.arrays() {
        let at = flow::COLUMNS * v + a;
        if in_two(given[at], others[at]) {
            return Err(Refusal::TwoMappings {
                vertex: v,
                array: a,
            });
        }
    }
    Ok(())
}

// Row after row.
fn check_rows(directives: &Directives, given: &[Set], others: &[Set]) -> Result<(), Refusal>
    requires given { Given directives.now.bytes given.now }
    requires array_cells { ArrayCells directives.now.bytes (others_at directives.now.bytes) others.now }
    ensures { result ≡ check42 directives.now.bytes }
{
    for v in 0..directives.vertices() {
        check_row(directives, v, given, others)?;
    }
    Ok(())
}

// Refusal 42. The slices behind `given` are work slices.
pub fn check(
    directives: &Directives,
    order: &[u16],
    given: &[Set],
    others: &mut [Set],
    held: &mut [Set],
    gives: &mut [Half],
    passes: &mut [Half],
    halves: &mut [Half],
) -> Result<(), Refusal>
    requires edge_order { EdgeOrder directives.now.bytes order.now }
    requires given { Given directives.now.bytes given.now }
    requires others_len { length others.old ≡ 8 * vertices directives.now.bytes }
    requires held_len { length held.old ≡ 8 * vertices directives.now.bytes }
    requires gives_len { length gives.old ≡ 8 * vertices directives.now.bytes }
    requires passes_len { length passes.old ≡ 8 * vertices directives.now.bytes }
    requires halves_len { length halves.old ≡ 8 * vertices directives.now.bytes }
    ensures { result ≡ check42 directives.now.bytes }
{
    elsewhere::solve(
        directives, order, given, others, held, gives, passes, halves,
    );
    check_rows(directives, given, others)
}

// The tables of the label rules, for all arrays: the cell of vertex v and array a stands at 8 v + a.
ghost use Rattle.std.specs.Prelude.{◌≡◌, true, false, ◌*◌, length};
ghost use Rattle.labels.specs.Ambiguity.{brought_of};
ghost use Rattle.labels.specs.Kept.{kept_of};
ghost use Rattle.labels.specs.Reaching.{reaching_of};
ghost use Rattle.labels.specs.Routines.{EdgeOrder};
ghost use Rattle.passes.specs.Counted.{LettersStop, ReachedStops, ReachingStops, KeptStops, BroughtStops, ReachedFirst};
ghost use Rattle.passes.specs.Marks.{AllReached};
ghost use Rattle.passes.specs.Tables.{Cells, Versions, UseGives, Reached, Letters};
ghost use Rattle.routine.specs.Layout.{vertices};

use crate::{entered, kept, pass, reaching, uses};
use labels::read::Routine;
use sets::{Half, Set};

// How many rounds two passes took: that for the vertices which a path from the entry reaches, 0 if it was not made, and that for the sets.
#[derive(Clone, Copy)]
pub struct Rounds {
    pub reached: usize,
    pub sets: usize,
}

// Which vertices a path of one edge or more from the entry reaches. Returns the number of rounds of the pass.
fn reached(
    routine: &Routine,
    order: &[u16],
    sets: &mut [Half],
    gives: &mut [Half],
    passes: &mut [Half],
) -> usize
    requires edge_order { EdgeOrder routine.now.bytes order.now }
    requires sets_len { length sets.old ≡ 8 * vertices routine.now.bytes }
    requires gives_len { length gives.old ≡ 8 * vertices routine.now.bytes }
    requires passes_len { length passes.old ≡ 8 * vertices routine.now.bytes }
    ensures reached { Reached routine.now.bytes sets.new }
    ensures reached_stops { ReachedStops routine.now.bytes result }
{
    reaching::fill_reached(routine.arrays(), gives, passes);
    pass::solve(routine, order, false, gives, passes, sets)
}

// The versions that paths bring, where a pass is to find the vertices that are reached. `halves` first holds their table.
fn brought_after_pass(
    routine: &Routine,
    order: &mut [u16],
    versions: &[Set],
    sets: &mut [Set],
    gives: &mut [Half],
    passes: &mut [Half],
    halves: &mut [Half],
) -> Rounds
    requires edge_order { EdgeOrder routine.now.bytes order.old }
    requires versions { Versions routine.now.bytes versions.now }
    requires sets_len { length sets.old ≡ 8 * vertices routine.now.bytes }
    requires gives_len { length gives.old ≡ 8 * vertices routine.now.bytes }
    requires passes_len { length passes.old ≡ 8 * vertices routine.now.bytes }
    requires halves_len { length halves.old ≡ 8 * vertices routine.now.bytes }
    ensures edge_order_2 { EdgeOrder routine.now.bytes order.new }
    ensures cells { Cells routine.now.bytes (brought_of routine.now.bytes) sets.new }
    ensures reached_stops { ReachedStops routine.now.bytes result.reached }
    ensures brought_stops { BroughtStops routine.now.bytes result.sets }
{
    let reached = reached(routine, order, halves, gives, passes);
    pass::reorder(routine, order, reached);
    reaching::fill_brought(versions, halves, sets, passes);
    let rounds = pass::solve_sets(routine, order, false, passes, sets, gives, halves);
    Rounds {
        reached,
        sets: rounds,
    }
}

// The versions that paths bring, where every vertex is reached: each label gives its version.
fn brought_everywhere(
    routine: &Routine,
    order: &[u16],
    versions: &[Set],
    sets: &mut [Set],
    gives: &mut [Half],
    passes: &mut [Half],
    halves: &mut [Half],
) -> usize
    requires all_reached { AllReached routine.now.bytes }
    requires edge_order { EdgeOrder routine.now.bytes order.now }
    requires versions { Versions routine.now.bytes versions.now }
    requires sets_len { length sets.old ≡ 8 * vertices routine.now.bytes }
    requires gives_len { length gives.old ≡ 8 * vertices routine.now.bytes }
    requires passes_len { length passes.old ≡ 8 * vertices routine.now.bytes }
    requires halves_len { length halves.old ≡ 8 * vertices routine.now.bytes }
    ensures cells { Cells routine.now.bytes (brought_of routine.now.bytes) sets.new }
    ensures brought_stops { BroughtStops routine.now.bytes result }
{
    reaching::fill_brought_everywhere(versions, sets, passes);
    pass::solve_sets(routine, order, false, passes, sets, gives, halves)
}

// The versions that paths bring, dropped labels included; no letter is asked.
pub fn brought(
    routine: &Routine,
    order: &mut [u16],
    versions: &[Set],
    sets: &mut [Set],
    gives: &mut [Half],
    passes: &mut [Half],
    halves: &mut [Half],
) -> Rounds
    requires edge_order { EdgeOrder routine.now.bytes order.old }
    requires versions { Versions routine.now.bytes versions.now }
    requires sets_len { length sets.old ≡ 8 * vertices routine.now.bytes }
    requires gives_len { length gives.old ≡ 8 * vertices routine.now.bytes }
    requires passes_len { length passes.old ≡ 8 * vertices routine.now.bytes }
    requires halves_len { length halves.old ≡ 8 * vertices routine.now.bytes }
    ensures edge_order_2 { EdgeOrder routine.now.bytes order.new }
    ensures cells { Cells routine.now.bytes (brought_of routine.now.bytes) sets.new }
    ensures reached_first { ReachedFirst routine.now.bytes result.reached }
    ensures brought_stops { BroughtStops routine.now.bytes result.sets }
{
    let n = routine.vertices();
    let everywhere = entered::all(routine, &mut gives[..n]);
    if everywhere {
        let rounds = brought_everywhere(routine, order, versions, sets, gives, passes, halves);
        return Rounds {
            reached: 0,
            sets: rounds,
        };
    }
    brought_after_pass(routine, order, versions, sets, gives, passes, halves)
}

// The letters. Returns the number of rounds of their pass.
pub fn letters(
    routine: &Routine,
    order: &[u16],
    uses: &[Half],
    letters: &mut [u8],
    sets: &mut [Half],
    passes: &mut [Half],
) -> usize
    requires edge_order { EdgeOrder routine.now.bytes order.now }
    requires use_gives { UseGives routine.now.bytes uses.now }
    requires letters_len { length letters.old ≡ 8 * vertices routine.now.bytes }
    requires sets_len { length sets.old ≡ 8 * vertices routine.now.bytes }
    requires passes_len { length passes.old ≡ 8 * vertices routine.now.bytes }
    ensures letters { Letters routine.now.bytes letters.new }
    ensures letters_stop { LettersStop routine.now.bytes result }
{
    uses::fill(uses, passes);
    let rounds = pass::solve(routine, order, true, uses, passes, sets);
    uses::write(sets, letters);
    uses::leave(routine, letters);
    rounds
}

// The reaching sets, where a pass is to find the vertices that are reached. `halves` first holds their table.
fn reaching_after_pass(
    routine: &Routine,
    order: &[u16],
    versions: &[Set],
    letters: &[u8],
    sets: &mut [Set],
    gives: &mut [Half],
    passes: &mut [Half],
    halves: &mut [Half],
) -> Rounds
    requires edge_order { EdgeOrder routine.now.bytes order.now }
    requires versions { Versions routine.now.bytes versions.now }
    requires letters { Letters routine.now.bytes letters.now }
    requires sets_len { length sets.old ≡ 8 * vertices routine.now.bytes }
    requires gives_len { length gives.old ≡ 8 * vertices routine.now.bytes }
    requires passes_len { length passes.old ≡ 8 * vertices routine.now.bytes }
    requires halves_len { length halves.old ≡ 8 * vertices routine.now.bytes }
    ensures cells { Cells routine.now.bytes (reaching_of routine.now.bytes) sets.new }
    ensures reached_stops { ReachedStops routine.now.bytes result.reached }
    ensures reaching_stops { ReachingStops routine.now.bytes result.sets }
{
    let reached = reached(routine, order, halves, gives, passes);
    reaching::fill(versions, halves, letters, sets, passes);
    reaching::enter_gives(routine, letters, sets);
    let rounds = pass::solve_sets(routine, order, false, passes, sets, gives, halves);
    reaching::enter(routine, sets);
    Rounds {
        reached,
        sets: rounds,
    }
}

// The reaching sets, where every vertex is reached. Returns the number of rounds of their pass.
fn reaching_everywhere(
    routine: &Routine,
    order: &[u16],
    versions: &[Set],
    letters: &[u8],
    sets: &mut [Set],
    gives: &mut [Half],
    passes: &mut [Half],
    halves: &mut [Half],
) -> usize
    requires all_reached { AllReached routine.now.bytes }
    requires edge_order { EdgeOrder routine.now.bytes order.now }
    requires versions { Versions routine.now.bytes versions.now }
    requires letters { Letters routine.now.bytes letters.now }
    requires sets_len { length sets.old ≡ 8 * vertices routine.now.bytes }
    requires gives_len { length gives.old ≡ 8 * vertices routine.now.bytes }
    requires passes_len { length passes.old ≡ 8 * vertices routine.now.bytes }
    requires halves_len { length halves.old ≡ 8 * vertices routine.now.bytes }
    ensures cells { Cells routine.now.bytes (reaching_of routine.now.bytes) sets.new }
    ensures reaching_stops { ReachingStops routine.now.bytes result }
{
    reaching::fill_everywhere(versions, letters, sets, passes);
    reaching::enter_gives(routine, letters, sets);
    let rounds = pass::solve_sets(routine, order, false, passes, sets, gives, halves);
    reaching::enter(routine, sets);
    rounds
}

// The reaching sets, and the rounds of both passes.
pub fn reaching(
    routine: &Routine,
    order: &[u16],
    versions: &[Set],
    letters: &[u8],
    sets: &mut [Set],
    gives: &mut [Half],
    passes: &mut [Half],
    halves: &mut [Half],
) -> Rounds
    requires edge_order { EdgeOrder routine.now.bytes order.now }
    requires versions { Versions routine.now.bytes versions.now }
    requires letters { Letters routine.now.bytes letters.now }
    requires sets_len { length sets.old ≡ 8 * vertices routine.now.bytes }
    requires gives_len { length gives.old ≡ 8 * vertices routine.now.bytes }
    requires passes_len { length passes.old ≡ 8 * vertices routine.now.bytes }
    requires halves_len { length halves.old ≡ 8 * vertices routine.now.bytes }
    ensures cells { Cells routine.now.bytes (reaching_of routine.now.bytes) sets.new }
    ensures reached_first { ReachedFirst routine.now.bytes result.reached }
    ensures reaching_stops { ReachingStops routine.now.bytes result.sets }
{
    let n = routine.vertices();
    let everywhere = entered::all(routine, &mut gives[..n]);
    if everywhere {
        let rounds = reaching_everywhere(
            routine, order, versions, letters, sets, gives, passes, halves,
        );
        return Rounds {
            reached: 0,
            sets: rounds,
        };
    }
    reaching_after_pass(
        routine, order, versions, letters, sets, gives, passes, halves,
    )
}

// The kept sets. Returns the number of rounds of their pass.
pub fn kept(
    routine: &Routine,
    order: &[u16],
    versions: &[Set],
    letters: &[u8],
    sets: &mut [Set],
    gives: &mut [Half],
    passes: &mut [Half],
    halves: &mut [Half],
) -> usize
    requires edge_order { EdgeOrder routine.now.bytes order.now }
    requires versions { Versions routine.now.bytes versions.now }
    requires letters { Letters routine.now.bytes letters.now }
    requires sets_len { length sets.old ≡ 8 * vertices routine.now.bytes }
    requires gives_len { length gives.old ≡ 8 * vertices routine.now.bytes }
    requires passes_len { length passes.old ≡ 8 * vertices routine.now.bytes }
    requires halves_len { length halves.old ≡ 8 * vertices routine.now.bytes }
    ensures cells { Cells routine.now.bytes (kept_of routine.now.bytes) sets.new }
    ensures kept_stops { KeptStops routine.now.bytes result }
{
    kept::fill(versions, letters, sets, passes);
    let rounds = pass::solve_sets(routine, order, true, passes, sets, gives, halves);
    kept::join(versions, letters, sets);
    rounds
}

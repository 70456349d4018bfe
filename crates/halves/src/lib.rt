// One pass of the solver over tables of sets, by their halves. Bits never meet in a pass, so the low halves are solved by themselves, and the
// high ones by the same pass again, where there are any: a routine whose arrays have at most 16 versions does not pay for 32.
#![tactic(auto)]

ghost use Rattle.std.specs.Prelude.{◌≡◌, false, ℕ, ◌≤◌, ◌<◌, length, get_or};
ghost use Rattle.flow.specs.Order.{Order, max_edges};
ghost use Rattle.flow.specs.Paths.{edge_count};
ghost use Rattle.flow.specs.Solver.{row_count, Tables, Solved};
ghost use Rattle.halves.specs.Halves.{low_halves, high_halves, with_low, with_high, AreHalves, doubled};
ghost use Rattle.sets.specs.Sets.{high_half};

use sets::{Half, Set};

// The low halves of all sets. Says whether a high one has anything in it.
fn take_low(sets: &[Set], halves: &mut [Half]) -> bool
    requires { length halves.old ≡ length sets.now }
    ensures halves_after { halves.new ≡ low_halves sets.now }
    ensures i_value { result ≡ false → (i : ℕ) → i < length sets.now → high_half (get_or sets.now i 0) ≡ 0 }
{
    let mut high: Half = 0;
    for i in 0..sets.len() {
        let set = sets[i];
        halves[i] = sets::low_half(set);
        high = high | sets::high_half(set);
    }
    high != 0
}

// The high halves of all sets.
fn take_high(sets: &[Set], halves: &mut [Half])
    requires { length halves.old ≡ length sets.now }
    ensures { halves.new ≡ high_halves sets.now }
{
    for i in 0..sets.len() {
        halves[i] = sets::high_half(sets[i]);
    }
}

// Sets whose high halves are empty.
fn widen(halves: &[Half], sets: &mut [Set])
    requires { length halves.now ≡ length sets.old }
    ensures { sets.new ≡ halves.now }
{
    for i in 0..sets.len() {
        sets[i] = sets::of_halves(halves[i], 0);
    }
}

// Puts halves in the place of the low ones.
fn put_low(halves: &[Half], sets: &mut [Set])
    requires { length halves.now ≡ length sets.old }
    ensures { sets.new ≡ with_low halves.now sets.old }
{
    for i in 0..sets.len() {
        sets[i] = sets::of_halves(halves[i], sets::high_half(sets[i]));
    }
}

// Puts halves in the place of the high ones.
fn put_high(halves: &[Half], sets: &mut [Set])
    requires { length halves.now ≡ length sets.old }
    ensures { sets.new ≡ with_high halves.now sets.old }
{
    for i in 0..sets.len() {
        sets[i] = sets::of_halves(sets::low_half(sets[i]), halves[i]);
    }
}

// The high halves solved: `sets` comes with those that are given, and with the low ones solved.
fn solve_high(
    edges: &[u8],
    order: &[u16],
    along: bool,
    passes: &[Half],
    sets: &mut [Set],
    gives: &mut [Half],
    halves: &mut [Half],
) -> usize
    requires order { Order (edge_count edges.now) order.now }
    requires edges_bound { edge_count edges.now ≤ max_edges }
    requires tables { Tables edges.now gives.old passes.now halves.old }
    requires sets_len { length sets.old ≡ length halves.old }
    requires halves_bound { row_count halves.old ≤ 256 }
    ensures sets_after { sets.new ≡ with_high halves.new sets.old }
    ensures solved { Solved
        edges.now order.now along (high_halves sets.old) passes.now (row_count halves.old)
        result halves.new }
{
    take_high(sets, gives);
    let rounds = solver::solve(edges, order, along, gives, passes, halves);
    put_high(halves, sets);
    rounds
}

// Fills in the sets of all vertices in every column. `sets` comes with what is given; what is passed is the same in both halves. Returns the
// number of rounds, of the half that takes more. `gives` and `halves` are work slices.
pub fn solve(
    edges: &[u8],
    order: &[u16],
    along: bool,
    passes: &[Half],
    sets: &mut [Set],
    gives: &mut [Half],
    halves: &mut [Half],
) -> usize
    requires order { Order (edge_count edges.now) order.now }
    requires edges_bound { edge_count edges.now ≤ max_edges }
    requires tables { Tables edges.now gives.old passes.now halves.old }
    requires are_halves { AreHalves passes.now }
    requires sets_len { length sets.old ≡ length halves.old }
    requires halves_bound { row_count halves.old ≤ 256 }
    ensures { Solved
        edges.now order.now along sets.old (doubled passes.now) (row_count halves.old)
        result sets.new }
{
    let wide = take_low(sets, gives);
    let low = solver::solve(edges, order, along, gives, passes, halves);
    if !wide {
        widen(halves, sets);
        return low;
    }
    put_low(halves, sets);
    let high = solve_high(edges, order, along, passes, sets, gives, halves);
    low.max(high)
}

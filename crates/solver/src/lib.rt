// The solver: rounds over the edges until one alters no set. The first rounds take every edge. If more are needed, the edges are cut
// into blocks, and a round takes only the blocks that may alter a set.
#![tactic(auto)]

ghost use Rattle.std.specs.Prelude.{◌≡◌, true, false, ◌≤◌, ◌<◌, ◌^◌, length, get_or, set};
ghost use Rattle.std.specs.Int.Bits.{bit_or};
ghost use Rattle.flow.specs.Order.{Order, max_edges};
ghost use Rattle.flow.specs.Paths.{edge_count};
ghost use Rattle.flow.specs.Solver.{turn, Ends, row_count, Recent, Tables, Going, Solved};
ghost use Rattle.sets.specs.Sets.{minus};
ghost use Rattle.solver.specs.Blocks.{block_start, NextPending, Marked, Took, TookBlock, Taken, Closed};

use flow::Carry;
use sets::Half;

// Rounds that take every edge. Most passes end within them.
const WHOLE: usize = 3;

// Edges of a block, by their turns.
const BLOCK: usize = 19;

// Blocks at most.
const BLOCKS: usize = 64;

// The set of all blocks.
const ALL: u64 = 0xffff_ffff_ffff_ffff;

// What a round over pending blocks has come to: the set of blocks that are pending, and whether a set was altered.
#[derive(Clone, Copy)]
pub struct Progress {
    pub pending: u64,
    pub altered: bool,
}

// Where block b begins, or where the turns end.
fn start(count: usize, b: usize) -> usize
    requires { b ≤ 64 }
    ensures { result ≡ block_start count b }
{
    if BLOCK * b < count {
        return BLOCK * b;
    }
    count
}

// The set of block b alone.
fn single(b: usize) -> u64
    requires { b < 64 }
    ensures { result ≡ 2 ^ b }
{
    1 << b
}

// A set of blocks without block b.
fn without(pending: u64, b: usize) -> u64
    requires { b < 64 }
    ensures { result ≡ minus pending (2 ^ b) }
{
    pending & !single(b)
}

// The first pending block from b on, or 64 if there is none.
fn next_pending(pending: u64, b: usize) -> usize
    requires { b ≤ 64 }
    ensures { NextPending pending b result }
{
    if b >= BLOCKS {
        return BLOCKS;
    }
    let rest = pending >> b;
    if rest == 0 {
        return BLOCKS;
    }
    b + u64::trailing_zeros(rest) as usize
}

// Adds a block to those of vertex v.
fn mark(marks: &mut [u64], v: usize, b: usize)
    requires v_in_bounds { v < length marks.old }
    requires b_bound { b < 64 }
    ensures { marks.new ≡ set marks.old v (bit_or (get_or marks.old v 0) (2 ^ b)) }
{
    marks[v] = marks[v] | single(b);
}

// For each vertex the blocks that have an edge with that far end.
fn mark_all(edges: &[u8], order: &[u16], along: bool, marks: &mut [u64])
    requires order { Order (edge_count edges.now) order.now }
    requires edges_bound { edge_count edges.now ≤ max_edges }
    requires ends { Ends edges.now (length marks.old) }
    ensures { Marked edges.now order.now along marks.new }
{
    for j in 0..order.len() {
        let v = flow::far_end(edges, along, flow::edge_at(order, along, j));
        mark(marks, v, j / BLOCK);
    }
}

// What a turn leaves beside the sets.
#[derive(Clone, Copy)]
struct Turn {
    progress: Progress,
    last: Carry,
}

// Takes the j-th edge of a round. If that alters a set, the blocks that have an edge from its near end are pending.
fn take(
    edges: &[u8],
    order: &[u16],
    along: bool,
    gives: &[Half],
    passes: &[Half],
    sets: &mut [Half],
    marks: &[u64],
    j: usize,
    p: Progress,
    last: Carry,
) -> Turn
    requires order { Order (edge_count edges.now) order.now }
    requires tables { Tables edges.now gives.now passes.now sets.old }
    requires sets_in_bounds { row_count sets.old ≤ length marks.now }
    requires j_in_bounds { j < length order.now }
    requires recent { Recent sets.old last }
    ensures took { Took edges.now order.now along gives.now passes.now marks.now j
        sets.old p sets.new result.progress }
    ensures recent_2 { Recent sets.new result.last }
{
    let i = flow::edge_at(order, along, j);
    let before = flow::unnoted(last);
    let next = flow::relax(edges, along, gives, passes, sets, i, before);
    let note = next.note;
    if flow::any(note) {
        let v = next.vertex;
        let progress = Progress {
            pending: p.pending | marks[v],
            altered: true,
        };
        return Turn {
            progress,
            last: next,
        };
    }
    Turn {
        progress: p,
        last: next,
    }
}

// Takes block b.
fn take_block(
    edges: &[u8],
    order: &[u16],
    along: bool,
    gives: &[Half],
    passes: &[Half],
    sets: &mut [Half],
    marks: &[u64],
    b: usize,
    p: Progress,
) -> Progress
    requires order { Order (edge_count edges.now) order.now }
    requires tables { Tables edges.now gives.now passes.now sets.old }
    requires sets_in_bounds { row_count sets.old ≤ length marks.now }
    requires marked { Marked edges.now order.now along marks.now }
    requires b_bound { b < 64 }
    ensures { TookBlock edges.now order.now along gives.now passes.now b
        sets.old p sets.new result }
{
    let from = start(order.len(), b);
    let to = start(order.len(), b + 1);
    let mut q = Progress {
        pending: without(p.pending, b),
        altered: p.altered,
    };
    let mut last = flow::untouched(sets.len());
    for j in from..to {
        let next = take(edges, order, along, gives, passes, sets, marks, j, q, last);
        q = next.progress;
        last = next.last;
    }
    q
}

// A round over the pending blocks.
fn round(
    edges: &[u8],
    order: &[u16],
    along: bool,
    gives: &[Half],
    passes: &[Half],
    sets: &mut [Half],
    marks: &[u64],
    pending: u64,
) -> Progress
    requires order { Order (edge_count edges.now) order.now }
    requires edges_bound { edge_count edges.now ≤ max_edges }
    requires tables { Tables edges.now gives.now passes.now sets.old }
    requires sets_in_bounds { row_count sets.old ≤ length marks.now }
    requires marked { Marked edges.now order.now along marks.now }
    requires closed { Closed edges.now order.now along gives.now passes.now 0 0 sets.old pending }
    ensures { Taken edges.now order.now along gives.now passes.now sets.old
        (length order.now) (length order.now) sets.new result }
{
    let mut p = Progress {
        pending,
        altered: false,
    };
    let mut b = next_pending(pending, 0);
    // no `for`: a block that is taken may add to those that are pending
    while b < BLOCKS {
        let q = take_block(edges, order, along, gives, passes, sets, marks, b, p);
        p = q;
        b = next_pending(p.pending, b + 1);
    }
    p
}

// Goes on by rounds over pending blocks, after r rounds, until one alters no set. All blocks are pending at first.
fn go_on(
    edges: &[u8],
    order: &[u16],
    along: bool,
    gives: &[Half],
    passes: &[Half],
    sets: &mut [Half],
    marks: &[u64],
    r: usize,
) -> usize
    requires order { Order (edge_count edges.now) order.now }
    requires edges_bound { edge_count edges.now ≤ max_edges }
    requires tables { Tables edges.now gives.now passes.now sets.old }
    requires sets_in_bounds { row_count sets.old ≤ length marks.now }
    requires marked { Marked edges.now order.now along marks.now }
    requires going { Going edges.now order.now along gives.now passes.now (row_count sets.old) sets.old r }
    ensures { Solved
        edges.now order.now along gives.now passes.now (row_count sets.old)
        result sets.new }
{
    let mut done = r;
    let mut pending = ALL;
    loop {
        let p = round(edges, order, along, gives, passes, sets, marks, pending);
        done += 1;
        if !p.altered {
            return done;
        }
        pending = p.pending;
    }
}

// The same, with the blocks marked first.
fn go_on_marked(
    edges: &[u8],
    order: &[u16],
    along: bool,
    gives: &[Half],
    passes: &[Half],
    sets: &mut [Half],
    r: usize,
) -> usize
    requires order { Order (edge_count edges.now) order.now }
    requires edges_bound { edge_count edges.now ≤ max_edges }
    requires tables { Tables edges.now gives.now passes.now sets.old }
    requires sets_bound { row_count sets.old ≤ 256 }
    requires going { Going edges.now order.now along gives.now passes.now (row_count sets.old) sets.old r }
    ensures { Solved
        edges.now order.now along gives.now passes.now (row_count sets.old)
        result sets.new }
{
    let mut marks = [0u64; 256];
    mark_all(edges, order, along, &mut marks);
    go_on(edges, order, along, gives, passes, sets, &marks, r)
}

// Fills in the sets of all vertices in every column, and returns the number of rounds. The last round alters no set.
pub fn solve(
    edges: &[u8],
    order: &[u16],
    along: bool,
    gives: &[Half],
    passes: &[Half],
    sets: &mut [Half],
) -> usize
    requires order { Order (edge_count edges.now) order.now }
    requires edges_bound { edge_count edges.now ≤ max_edges }
    requires tables { Tables edges.now gives.now passes.now sets.old }
    requires sets_bound { row_count sets.old ≤ 256 }
    ensures { Solved
        edges.now order.now along gives.now passes.now (row_count sets.old)
        result sets.new }
{
    sets.fill(0);
    for r in 0..WHOLE {
        if !flow::round(edges, order, along, gives, passes, sets) {
            return r + 1;
        }
    }
    go_on_marked(edges, order, along, gives, passes, sets, WHOLE)
}

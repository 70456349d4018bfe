// Refusals 20 and 21, first by vertex, then by array (document 01, "Who can cause a refusal").
#![tactic(auto)]

ghost use Rattle.std.specs.Prelude.{◌≡◌, not, ◌&&◌, ◌+◌, ◌*◌, ◌≤◌, ◌<◌, eqb, length, get_or, replicate};
ghost use Rattle.std.specs.Int.Bits.{bit_and};
ghost use Rattle.labels.specs.Ambiguity.{is_ambiguous};
ghost use Rattle.labels.specs.Checks.{writes_in, check20, check21};
ghost use Rattle.labels.specs.Routines.{EdgeOrder};
ghost use Rattle.words.specs.Sums.{any_below};
ghost use Rattle.checks.specs.Rows.{InMasks, AtReferences, Checked, Judged};
ghost use Rattle.passes.specs.Tables.{Versions, UseGives};
ghost use Rattle.refusal.specs.Checks.{holds, first_failed};
ghost use Rattle.routine.specs.Layout.{arrays, vertices, edges};
ghost use Rattle.refusal.specs.declared.Refusal.TheVariants.{WritesInArgument, AmbiguousReference};
ghost use Rattle.sets.specs.Sets.{has, several};

use labels::event;
use labels::read::Routine;
use passes::{events, pass, tables};
use refusal::Refusal;
use sets::{Half, Set};

// The tables that a routine is worked out in: an entry of `order` for each edge, eight cells of each other for each vertex.
#[derive(Drop)]
pub struct Tables<const CELLS: usize, const EDGES: usize> {
    pub order: [u16; EDGES],
    pub versions: [Set; CELLS],
    pub uses: [Half; CELLS],
    pub letters: [u8; CELLS],
    pub reaching: [Set; CELLS],
    pub gives: [Half; CELLS],
    pub passes: [Half; CELLS],
    pub halves: [Half; CELLS],
}

impl<const CELLS: usize, const EDGES: usize> Tables<CELLS, EDGES> {
    // Zeros.
    pub fn new() -> Self
        ensures order { result.order ≡ replicate EDGES 0 }
        ensures versions { result.versions ≡ replicate CELLS 0 }
        ensures uses { result.uses ≡ replicate CELLS 0 }
        ensures letters { result.letters ≡ replicate CELLS 0 }
        ensures reaching { result.reaching ≡ replicate CELLS 0 }
        ensures gives { result.gives ≡ replicate CELLS 0 }
        ensures passes { result.passes ≡ replicate CELLS 0 }
        ensures halves { result.halves ≡ replicate CELLS 0 }
    {
        Tables {
            order: [0; EDGES],
            versions: [0; CELLS],
            uses: [0; CELLS],
            letters: [0; CELLS],
            reaching: [0; CELLS],
            gives: [0; CELLS],
            passes: [0; CELLS],
            halves: [0; CELLS],
        }
    }
}

// What `prepare` answers, and the rounds of the passes that it made: those for the letters, the vertices that are reached (0 if it was not
// needed) and the reaching sets. All are 0 where 20 refuses, since none is made.
#[derive(Clone, Copy)]
pub struct Prepared {
    pub verdict: Result<(), Refusal>,
    pub letters: usize,
    pub reached: usize,
    pub reaching: usize,
}

// What `judge` answers, and the rounds of the passes that it made: that for the vertices that are reached, 0 if it was not needed, and that
// for the versions that paths bring. Both are 0 where 20 refuses.
#[derive(Clone, Copy)]
pub struct Judgement {
    pub verdict: Result<(), Refusal>,
    pub reached: usize,
    pub brought: usize,
}

// Whether a cell that gives this to the sets of use is a write that this mask looks for.
fn is_write(uses: Half, mask: Half) -> bool
    ensures { result ≡ not (eqb (bit_and uses mask) 0) }
{
    uses & mask != 0
}

// Whether a cell that gives this to the sets of use is a reference, and two versions reach it.
fn is_ambiguous(uses: Half, reaching: Set) -> bool
    ensures { result ≡ (has uses 0 && several reaching) }
{
    (uses % 2 == 1) & sets::more_than_one(reaching)
}

// The masks by which 20 looks for writes: of an in argument bit 3, of any other array nothing.
fn in_masks(routine: &Routine) -> [Half; flow::COLUMNS]
    ensures { InMasks routine.now.bytes result }
{
    let mut masks = [0 as Half; flow::COLUMNS];
    for a in 0..routine.arrays() {
        masks[a] = event::only_if(routine.array(a).is_in(), 0b1000);
    }
    masks
}

// Whether the row of vertex v has a write of an in argument.
fn row_writes(uses: &[Half], masks: [Half; flow::COLUMNS], v: usize) -> bool
    requires v_in_bounds { 8 * v + 8 ≤ length uses.now }
    requires masks_len { length masks ≡ 8 }
    ensures { result ≡ any_below (λ a. not (eqb (bit_and (get_or uses.now (8 * v + a) 0) (get_or masks a 0)) 0)) 8 }
{
    let mut any = false;
    for a in 0..flow::COLUMNS {
        let at = flow::COLUMNS * v + a;
        any = any | is_write(uses[at], masks[a]);
    }
    any
}

// The first write of an in argument at vertex v.
fn check_writes_at(
    routine: &Routine,
    v: usize,
    uses: &[Half],
    masks: [Half; flow::COLUMNS],
) -> Result<(), Refusal>
    requires use_gives { UseGives routine.now.bytes uses.now }
    requires v_bound { v < vertices routine.now.bytes }
    requires in_masks { InMasks routine.now.bytes masks }
    ensures { result ≡ first_failed (λ a. holds (not (writes_in routine.now.bytes a v)) (WritesInArgument v a)) 0 (arrays routine.now.bytes) }
{
    for a in 0..routine.arrays() {
        let at = flow::COLUMNS * v + a;
        let writes = is_write(uses[at], masks[a]);
        if writes {
            return Err(Refusal::WritesInArgument {
                vertex: v,
                array: a,
            });
        }
    }
    Ok(())
}

// Vertex v, array by array only if its row has a write of an in argument.
fn check_writes_row(
    routine: &Routine,
    v: usize,
    uses: &[Half],
    masks: [Half; flow::COLUMNS],
) -> Result<(), Refusal>
    requires use_gives { UseGives routine.now.bytes uses.now }
    requires v_bound { v < vertices routine.now.bytes }
    requires in_masks { InMasks routine.now.bytes masks }
    ensures { result ≡ first_failed (λ a. holds (not (writes_in routine.now.bytes a v)) (WritesInArgument v a)) 0 (arrays routine.now.bytes) }
{
    let any = row_writes(uses, masks, v);
    if any {
        return check_writes_at(routine, v, uses, masks);
    }
    Ok(())
}

// Refusal 20.
fn check_writes(routine: &Routine, uses: &[Half]) -> Result<(), Refusal>
    requires use_gives { UseGives routine.now.bytes uses.now }
    ensures { result ≡ check20 routine.now.bytes }
{
    let masks = in_masks(routine);
    for v in 0..routine.vertices() {
        check_writes_row(routine, v, uses, masks)?;
    }
    Ok(())
}

// Whether the row of vertex v has a reference that two versions reach.
fn row_ambiguous(uses: &[Half], reaching: &[Set], v: usize) -> bool
    requires v_in_bounds { 8 * v + 8 ≤ length uses.now }
    requires v_in_bounds_2 { 8 * v + 8 ≤ length reaching.now }
    ensures { result ≡ any_below (λ a. has (get_or uses.now (8 * v + a) 0) 0 && several (get_or reaching.now (8 * v + a) 0)) 8 }
{
    let mut any = false;
    for a in 0..flow::COLUMNS {
        let at = flow::COLUMNS * v + a;
        any = any | is_ambiguous(uses[at], reaching[at]);
    }
    any
}

// The first ambiguous reference at vertex v.
fn check_ambiguous_at(
    routine: &Routine,
    v: usize,
    uses: &[Half],
    reaching: &[Set],
) -> Result<(), Refusal>
    requires use_gives { UseGives routine.now.bytes uses.now }
    requires v_bound { v < vertices routine.now.bytes }
    requires at_references { AtReferences routine.now.bytes reaching.now }
    ensures { result ≡ first_failed (λ a. holds (not (is_ambiguous routine.now.bytes a v)) (AmbiguousReference v a)) 0 (arrays routine.now.bytes) }
{
    for a in 0..routine.arrays() {
        let at = flow::COLUMNS * v + a;
        let ambiguous = is_ambiguous(uses[at], reaching[at]);
        if ambiguous {
            return Err(Refusal::AmbiguousReference {
                vertex: v,
                array: a,
            });
        }
    }
    Ok(())
}

// Vertex v, array by array only if its row has an ambiguous reference.
fn check_ambiguous_row(
    routine: &Routine,
    v: usize,
    uses: &[Half],
    reaching: &[Set],
) -> Result<(), Refusal>
    requires use_gives { UseGives routine.now.bytes uses.now }
    requires v_bound { v < vertices routine.now.bytes }
    requires at_references { AtReferences routine.now.bytes reaching.now }
    ensures { result ≡ first_failed (λ a. holds (not (is_ambiguous routine.now.bytes a v)) (AmbiguousReference v a)) 0 (arrays routine.now.bytes) }
{
    let any = row_ambiguous(uses, reaching, v);
    if any {
        return check_ambiguous_at(routine, v, uses, reaching);
    }
    Ok(())
}

// Refusal 21.
fn check_ambiguous(routine: &Routine, uses: &[Half], reaching: &[Set]) -> Result<(), Refusal>
    requires use_gives { UseGives routine.now.bytes uses.now }
    requires at_references { AtReferences routine.now.bytes reaching.now }
    ensures { result ≡ check21 routine.now.bytes }
{
    for v in 0..routine.vertices() {
        check_ambiguous_row(routine, v, uses, reaching)?;
    }
    Ok(())
}

// Refusals 20 and 21. Where both pass, `letters` and `reaching` are left with their tables; `gives`, `passes` and `halves` are work slices.
fn check(
    routine: &Routine,
    order: &mut [u16],
    versions: &[Set],
    uses: &[Half],
    letters: &mut [u8],
    reaching: &mut [Set],
    gives: &mut [Half],
    passes: &mut [Half],
    halves: &mut [Half],
) -> Prepared
    requires edge_order { EdgeOrder routine.now.bytes order.old }
    requires versions { Versions routine.now.bytes versions.now }
    requires use_gives { UseGives routine.now.bytes uses.now }
    requires letters_len { length letters.old ≡ 8 * vertices routine.now.bytes }
    requires reaching_len { length reaching.old ≡ 8 * vertices routine.now.bytes }
    requires gives_len { length gives.old ≡ 8 * vertices routine.now.bytes }
    requires passes_len { length passes.old ≡ 8 * vertices routine.now.bytes }
    requires halves_len { length halves.old ≡ 8 * vertices routine.now.bytes }
    ensures edge_order_2 { EdgeOrder routine.now.bytes order.new }
    ensures checked { Checked routine.now.bytes result letters.new reaching.new }
{
    let writes = check_writes(routine, uses);
    if let Err(_) = writes {
        return Prepared {
            verdict: writes,
            letters: 0,
            reached: 0,
            reaching: 0,
        };
    }
    let first = tables::letters(routine, order, uses, letters, halves, passes);
    pass::reorder(routine, order, first);
    let next = tables::reaching(
        routine, order, versions, letters, reaching, gives, passes, halves,
    );
    let verdict = check_ambiguous(routine, uses, reaching);
    Prepared {
        verdict,
        letters: first,
        reached: next.reached,
        reaching: next.sets,
    }
}

// The order of the edges, the tables of events, then refusals 20 and 21. Where both pass, `letters` and `reaching` are left with their
// tables; `uses`, `gives`, `passes` and `halves` are work slices.
pub fn prepare(
    routine: &Routine,
    order: &mut [u16],
    versions: &mut [Set],
    uses: &mut [Half],
    letters: &mut [u8],
    reaching: &mut [Set],
    gives: &mut [Half],
    passes: &mut [Half],
    halves: &mut [Half],
) -> Prepared
    requires order_len { length order.old ≡ edges routine.now.bytes }
    requires versions_len { length versions.old ≡ 8 * vertices routine.now.bytes }
    requires uses_len { length uses.old ≡ 8 * vertices routine.now.bytes }
    requires letters_len { length letters.old ≡ 8 * vertices routine.now.bytes }
    requires reaching_len { length reaching.old ≡ 8 * vertices routine.now.bytes }
    requires gives_len { length gives.old ≡ 8 * vertices routine.now.bytes }
    requires passes_len { length passes.old ≡ 8 * vertices routine.now.bytes }
    requires halves_len { length halves.old ≡ 8 * vertices routine.now.bytes }
    ensures edge_order { EdgeOrder routine.now.bytes order.new }
    ensures versions { Versions routine.now.bytes versions.new }
    ensures checked { Checked routine.now.bytes result letters.new reaching.new }
{
    pass::order(routine, order);
    events::tabulate(routine, versions, uses);
    check(
        routine, order, versions, uses, letters, reaching, gives, passes, halves,
    )
}

// Refusals 20 and 21 without letters. Where both pass, `brought` is left with the versions that paths bring; all other slices are work slices.
pub fn judge(
    routine: &Routine,
    order: &mut [u16],
    versions: &mut [Set],
    uses: &mut [Half],
    brought: &mut [Set],
    gives: &mut [Half],
    passes: &mut [Half],
    halves: &mut [Half],
) -> Judgement
    requires order_len { length order.old ≡ edges routine.now.bytes }
    requires versions_len { length versions.old ≡ 8 * vertices routine.now.bytes }
    requires uses_len { length uses.old ≡ 8 * vertices routine.now.bytes }
    requires brought_len { length brought.old ≡ 8 * vertices routine.now.bytes }
    requires gives_len { length gives.old ≡ 8 * vertices routine.now.bytes }
    requires passes_len { length passes.old ≡ 8 * vertices routine.now.bytes }
    requires halves_len { length halves.old ≡ 8 * vertices routine.now.bytes }
    ensures { Judged routine.now.bytes result brought.new }
{
    pass::by_number(routine, order);
    events::tabulate(routine, versions, uses);
    let writes = check_writes(routine, uses);
    if let Err(_) = writes {
        return Judgement {
            verdict: writes,
            reached: 0,
            brought: 0,
        };
    }
    let rounds = tables::brought(routine, order, versions, brought, gives, passes, halves);
    let verdict = check_ambiguous(routine, uses, brought);
    Judgement {
        verdict,
        reached: rounds.reached,
        brought: rounds.sets,
    }
}

// Reaching sets (document 01, "Labels"), which vertices a path from the entry reaches, and the versions that paths bring there.
ghost use Rattle.std.specs.Prelude.{◌≡◌, cond, not, ◌||◌, ◌≤◌, ◌<◌, ◌^◌, eqb, ltb, length, get_or};
ghost use Rattle.routine.specs.Arrays.{kind, initial, is_in_or_inout};
ghost use Rattle.labels.specs.Letters.{use_of_byte};
ghost use Rattle.labels.specs.Reaching.{reaching_of};
ghost use Rattle.passes.specs.Tables.{reached_cell};
ghost use Rattle.labels.specs.Uses.{is_n};
ghost use Rattle.routine.specs.Layout.{arrays, entry};
ghost use Rattle.words.specs.Tables.{table, with_row};
ghost use Rattle.sets.specs.Sets.{every_half};

use labels::read::Routine;
use labels::{event, letter};
use sets::{Half, Set};

// The entry gives, in each of m columns.
fn enter_reached(m: usize, gives: &mut [Half])
    requires { m ≤ length gives.old }
    ensures { gives.new ≡ with_row gives.old entry (λ a. 1) m }
{
    for a in 0..m {
        gives[a] = 1;
    }
}

// Every vertex passes.
fn pass_reached(passes: &mut [Half])
    ensures { passes.new ≡ table (λ i. 1) (length passes.old) }
{
    for i in 0..passes.len() {
        passes[i] = 1;
    }
}

// The tables of the pass that finds the vertices which a path from the entry reaches, in each of m columns.
pub fn fill_reached(m: usize, gives: &mut [Half], passes: &mut [Half])
    requires { m ≤ length gives.old }
    ensures gives_after { gives.new ≡ table (λ i. cond (ltb i m) 1 0) (length gives.old) }
    ensures passes_after { passes.new ≡ table (λ i. 1) (length passes.old) }
{
    gives.fill(0);
    enter_reached(m, gives);
    pass_reached(passes);
}

// Whether a cell is the entry's, or its set says that a path from the entry reaches it.
fn is_reached(i: usize, set: Half) -> bool
    ensures { result ≡ reached_cell i set }
{
    (i < flow::COLUMNS) | (set % 2 == 1)
}

// The tables of the pass that finds what paths bring where every vertex is reached: each label gives its version, and what is no label passes
// every version.
pub fn fill_brought_everywhere(versions: &[Set], gives: &mut [Set], passes: &mut [Half])
    requires gives_len { length gives.old ≡ length versions.now }
    requires passes_len { length passes.old ≡ length versions.now }
    ensures gives_after { gives.new ≡ versions.now }
    ensures passes_after { passes.new
        ≡ table (λ i. cond (eqb (get_or versions.now i 0) 0) every_half 0) (length versions.now) }
{
    for i in 0..versions.len() {
        let version = versions[i];
        gives[i] = version;
        passes[i] = event::every_if(version == 0);
    }
}

// The tables of the pass that finds what paths bring: a label that is reached gives its version, and what is no label passes every version.
pub fn fill_brought(versions: &[Set], reached: &[Half], gives: &mut [Set], passes: &mut [Half])
    requires reached_len { length reached.now ≡ length versions.now }
    requires gives_len { length gives.old ≡ length versions.now }
    requires passes_len { length passes.old ≡ length versions.now }
    ensures gives_after { gives.new
        ≡ table (λ i. cond (reached_cell i (get_or reached.now i 0)) (get_or versions.now i 0) 0) (length versions.now) }
    ensures passes_after { passes.new
        ≡ table (λ i. cond (eqb (get_or versions.now i 0) 0) every_half 0) (length versions.now) }
{
    for i in 0..versions.len() {
        let version = versions[i];
        gives[i] = event::only_if(is_reached(i, reached[i]), version);
        passes[i] = event::every_if(version == 0);
    }
}

// The tables of the pass: a kept label that is reached gives its version, and what is no kept label passes every version.
pub fn fill(
    versions: &[Set],
    reached: &[Half],
    letters: &[u8],
    gives: &mut [Set],
    passes: &mut [Half],
)
    requires reached_len { length reached.now ≡ length versions.now }
    requires letters_len { length letters.now ≡ length versions.now }
    requires gives_len { length gives.old ≡ length versions.now }
    requires passes_len { length passes.old ≡ length versions.now }
    ensures gives_after { gives.new
        ≡ table (λ i. cond (reached_cell i (get_or reached.now i 0))
        (cond (not (is_n (use_of_byte (get_or letters.now i 0)))) (get_or versions.now i 0) 0) 0) (length versions.now) }
    ensures passes_after { passes.new
        ≡ table (λ i. cond (eqb (cond (not (is_n (use_of_byte (get_or letters.now i 0)))) (get_or versions.now i 0) 0) 0) every_half 0)
        (length versions.now) }
{
    for i in 0..versions.len() {
        let kept = event::only_if(letter::leaves(letters[i]), versions[i]);
        gives[i] = event::only_if(is_reached(i, reached[i]), kept);
        passes[i] = event::every_if(kept == 0);
    }
}

// The same where every vertex is reached: each kept label gives its version.
pub fn fill_everywhere(versions: &[Set], letters: &[u8], gives: &mut [Set], passes: &mut [Half])
    requires letters_len { length letters.now ≡ length versions.now }
    requires gives_len { length gives.old ≡ length versions.now }
    requires passes_len { length passes.old ≡ length versions.now }
    ensures gives_after { gives.new
        ≡ table (λ i. cond (not (is_n (use_of_byte (get_or letters.now i 0)))) (get_or versions.now i 0) 0) (length versions.now) }
    ensures passes_after { passes.new
        ≡ table (λ i. cond (eqb (cond (not (is_n (use_of_byte (get_or letters.now i 0)))) (get_or versions.now i 0) 0) 0) every_half 0)
        (length versions.now) }
{
    for i in 0..versions.len() {
        let given = event::only_if(letter::leaves(letters[i]), versions[i]);
        gives[i] = given;
        passes[i] = event::every_if(given == 0);
    }
}

// The entry's row of what is given: the initial version of an array that comes with it, or whose entry label is kept.
pub fn enter_gives(routine: &Routine, letters: &[u8], gives: &mut [Set])
    requires in_bounds { 8 ≤ length letters.now }
    requires in_bounds_2 { 8 ≤ length gives.old }
    ensures { gives.new
        ≡ with_row gives.old entry
        (λ a. cond (not (is_n (use_of_byte (get_or letters.now a 0))) || is_in_or_inout (kind routine.now.bytes a)) (2 ^ initial routine.now.bytes a) 0)
        (arrays routine.now.bytes) }
{
    for a in 0..routine.arrays() {
        let r = routine.array(a);
        let given = letter::leaves(letters[a]) | r.is_in_or_inout();
        gives[a] = event::only_if(given, sets::single(r.initial));
    }
}

// The entry's own set: what the path of no edge brings.
fn at_entry(routine: &Routine, a: usize) -> Set
    requires a_bound { a < arrays routine.now.bytes }
    ensures { result ≡ reaching_of routine.now.bytes a entry }
{
    let r = routine.array(a);
    event::only_if(r.is_in_or_inout(), sets::single(r.initial))
}

// The entry's row of the reaching sets.
pub fn enter(routine: &Routine, sets: &mut [Set])
    requires in_bounds { 8 ≤ length sets.old }
    ensures { sets.new ≡ with_row sets.old entry (λ a. reaching_of routine.now.bytes a entry) (arrays routine.now.bytes) }
{
    for a in 0..routine.arrays() {
        sets[a] = at_entry(routine, a);
    }
}

// Whether each vertex but the entry is entered from an earlier one: then a path from the entry reaches every vertex, and no pass is needed
// to find that.
ghost use Rattle.std.specs.Prelude.{◌≡◌, true, ◌<◌, eqb, length, get_or};
ghost use Rattle.passes.specs.Marks.{Marked, AllReached};
ghost use Rattle.routine.specs.Layout.{vertices, edges};
ghost use Rattle.words.specs.Sums.{any_below};

use labels::read::Routine;
use sets::Half;

// Marks the vertex that edge i enters, if it leaves an earlier one.
fn mark(routine: &Routine, i: usize, marks: &mut [Half])
    requires i_bound { i < edges routine.now.bytes }
    requires marks_len { length marks.old ≡ vertices routine.now.bytes }
    requires marked { Marked routine.now.bytes marks.old }
    ensures { Marked routine.now.bytes marks.new }
{
    let e = routine.edge(i);
    let to = e.to;
    if e.from >= to {
        return;
    }
    marks[to] = 1;
}

// Marks the vertices that edges enter from earlier ones.
fn mark_all(routine: &Routine, marks: &mut [Half])
    requires marks_len { length marks.old ≡ vertices routine.now.bytes }
    requires marked { Marked routine.now.bytes marks.old }
    ensures { Marked routine.now.bytes marks.new }
{
    for i in 0..routine.edges() {
        mark(routine, i, marks);
    }
}

// Whether a vertex has no mark.
fn one_unmarked(marks: &[Half]) -> bool
    ensures { result ≡ any_below (λ v. eqb (get_or marks.now v 0) 0) (length marks.now) }
{
    let mut any = false;
    for v in 0..marks.len() {
        any = any | (marks[v] == 0);
    }
    any
}

// Whether each is. `marks` is a work slice.
pub fn all(routine: &Routine, marks: &mut [Half]) -> bool
    requires marks_len { length marks.old ≡ vertices routine.now.bytes }
    ensures { result ≡ true → AllReached routine.now.bytes }
{
    marks.fill(0);
    marks[0] = 1;
    mark_all(routine, marks);
    let unmarked = one_unmarked(marks);
    !unmarked
}

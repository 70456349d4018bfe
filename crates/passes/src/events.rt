// The events of a routine as tables of sets: what a label's version is, and what an event gives to the sets of use.
// Every row is filled by its actions; then those of the entry and the exit are filled again, with their labels.
ghost use Rattle.std.specs.Prelude.{◌≡◌, ◌*◌, ◌<◌, length};
ghost use Rattle.flow.specs.Cells.{NoneBeyond};
ghost use Rattle.labels.specs.Events.{event, version_set};
ghost use Rattle.labels.specs.Uses.{use_gives};
ghost use Rattle.passes.specs.Tables.{CellsAlone, Versions, UseGives};
ghost use Rattle.routine.specs.Actions.{action, action_byte};
ghost use Rattle.routine.specs.Layout.{arrays, vertices};
ghost use Rattle.words.specs.Tables.{table, with_row};

use labels::event;
use labels::read::Routine;
use routine::action::Action;
use sets::{Half, Set};

// The versions of vertex v's remappings, as sets. Its row of action bytes is lent, so that no byte's place is worked out anew.
fn versions_row(routine: &Routine, row: &[u8], v: usize, versions: &mut [Set])
    requires row_value { row.now ≡ table (λ a. action_byte routine.now.bytes a v) (arrays routine.now.bytes) }
    requires v_bound { v < vertices routine.now.bytes }
    requires versions_len { length versions.old ≡ 8 * vertices routine.now.bytes }
    ensures { versions.new
        ≡ with_row versions.old v (λ a. version_set (action routine.now.bytes a v)) (arrays routine.now.bytes) }
{
    for a in 0..routine.arrays() {
        let x = Action::from(row[a]);
        let at = flow::COLUMNS * v + a;
        versions[at] = event::version_set(x);
    }
}

// What vertex v's actions give to the sets of use.
fn uses_row(routine: &Routine, row: &[u8], v: usize, uses: &mut [Half])
    requires row_value { row.now ≡ table (λ a. action_byte routine.now.bytes a v) (arrays routine.now.bytes) }
    requires v_bound { v < vertices routine.now.bytes }
    requires uses_len { length uses.old ≡ 8 * vertices routine.now.bytes }
    ensures { uses.new
        ≡ with_row uses.old v (λ a. use_gives (action routine.now.bytes a v)) (arrays routine.now.bytes) }
{
    for a in 0..routine.arrays() {
        let x = Action::from(row[a]);
        let at = flow::COLUMNS * v + a;
        uses[at] = event::gives_of(x);
    }
}

// Both rows of vertex v, by its events.
fn event_rows(routine: &Routine, v: usize, versions: &mut [Set], uses: &mut [Half])
    requires v_bound { v < vertices routine.now.bytes }
    requires versions_len { length versions.old ≡ 8 * vertices routine.now.bytes }
    requires uses_len { length uses.old ≡ 8 * vertices routine.now.bytes }
    ensures versions_after { versions.new
        ≡ with_row versions.old v (λ a. version_set (event routine.now.bytes a v)) (arrays routine.now.bytes) }
    ensures uses_after { uses.new
        ≡ with_row uses.old v (λ a. use_gives (event routine.now.bytes a v)) (arrays routine.now.bytes) }
{
    for a in 0..routine.arrays() {
        let x = routine.event(a, v);
        let at = flow::COLUMNS * v + a;
        versions[at] = event::version_set(x);
        uses[at] = event::gives_of(x);
    }
}

// All rows, by the actions. A loop of its own for each table and row is faster than one that asks at each cell which vertex it is of.
fn action_rows(routine: &Routine, versions: &mut [Set], uses: &mut [Half])
    requires versions_len { length versions.old ≡ 8 * vertices routine.now.bytes }
    requires uses_len { length uses.old ≡ 8 * vertices routine.now.bytes }
    requires none_beyond { NoneBeyond (arrays routine.now.bytes) (vertices routine.now.bytes) versions.old }
    requires none_beyond_2 { NoneBeyond (arrays routine.now.bytes) (vertices routine.now.bytes) uses.old }
    ensures cells_alone { CellsAlone routine.now.bytes (λ a v. version_set (action routine.now.bytes a v)) versions.new }
    ensures cells_alone_2 { CellsAlone routine.now.bytes (λ a v. use_gives (action routine.now.bytes a v)) uses.new }
{
    for v in 0..routine.vertices() {
        let row = routine.row(v);
        versions_row(routine, row, v, versions);
        uses_row(routine, row, v, uses);
    }
}

// Fills in both tables, and leaves nothing in the columns beyond the arrays.
pub fn tabulate(routine: &Routine, versions: &mut [Set], uses: &mut [Half])
    requires versions_len { length versions.old ≡ 8 * vertices routine.now.bytes }
    requires uses_len { length uses.old ≡ 8 * vertices routine.now.bytes }
    ensures versions { Versions routine.now.bytes versions.new }
    ensures use_gives { UseGives routine.now.bytes uses.new }
{
    versions.fill(0);
    uses.fill(0);
    action_rows(routine, versions, uses);
    event_rows(routine, 0, versions, uses);
    event_rows(routine, routine.vertices() - 1, versions, uses);
}

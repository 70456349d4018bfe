// Use, one letter for each label (document 01, "Labels").
ghost use Rattle.std.specs.Prelude.{◌≡◌, ◌*◌, length, get_or};
ghost use Rattle.labels.specs.Letters.{letter_byte};
ghost use Rattle.labels.specs.Uses.{passes_by, letter_of};
ghost use Rattle.labels.specs.declared.Use.TheVariants.{W};
ghost use Rattle.routine.specs.Layout.{arrays, vertices, exit};
ghost use Rattle.words.specs.Tables.{table, with_row};

use labels::read::Routine;
use labels::{event, letter};
use sets::Half;

// The table of what events pass, by what they give.
pub fn fill(uses: &[Half], passes: &mut [Half])
    requires { length passes.old ≡ length uses.now }
    ensures { passes.new ≡ table (λ i. passes_by (get_or uses.now i 0)) (length uses.now) }
{
    for i in 0..uses.len() {
        passes[i] = event::passes_by(uses[i]);
    }
}

// The letters that the sets of use say.
pub fn write(sets: &[Half], letters: &mut [u8])
    requires { length letters.old ≡ length sets.now }
    ensures { letters.new ≡ table (λ i. letter_byte (letter_of (get_or sets.now i 0))) (length sets.now) }
{
    for i in 0..sets.len() {
        letters[i] = u8::from(letter::of_set(sets[i]));
    }
}

// The exit's row of letters.
pub fn leave(routine: &Routine, letters: &mut [u8])
    requires letters_len { length letters.old ≡ 8 * vertices routine.now.bytes }
    ensures { letters.new
        ≡ with_row letters.old (exit routine.now.bytes) (λ a. letter_byte W) (arrays routine.now.bytes) }
{
    let row = flow::COLUMNS * (routine.vertices() - 1);
    for a in 0..routine.arrays() {
        letters[row + a] = b'W';
    }
}

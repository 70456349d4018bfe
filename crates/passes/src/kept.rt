// Kept sets (document 01, "Labels").
ghost use Rattle.std.specs.Prelude.{◌≡◌, cond, not, ◌||◌, eqb, length, get_or};
ghost use Rattle.std.specs.Int.Bits.{bit_or};
ghost use Rattle.labels.specs.Kept.{is_n_or_r};
ghost use Rattle.labels.specs.Letters.{use_of_byte};
ghost use Rattle.labels.specs.Uses.{is_n};
ghost use Rattle.words.specs.Tables.{table};
ghost use Rattle.sets.specs.Sets.{every_half};

use labels::{event, letter};
use sets::{Half, Set};

// The tables of the pass: a kept label gives its version; no label, or one that is N or R, passes every version.
pub fn fill(versions: &[Set], letters: &[u8], gives: &mut [Set], passes: &mut [Half])
    requires letters_len { length letters.now ≡ length versions.now }
    requires gives_len { length gives.old ≡ length versions.now }
    requires passes_len { length passes.old ≡ length versions.now }
    ensures gives_after { gives.new
        ≡ table (λ i. cond (not (is_n (use_of_byte (get_or letters.now i 0)))) (get_or versions.now i 0) 0) (length versions.now) }
    ensures passes_after { passes.new
        ≡ table (λ i. cond (eqb (get_or versions.now i 0) 0 || is_n_or_r (use_of_byte (get_or letters.now i 0))) every_half 0)
        (length versions.now) }
{
    for i in 0..versions.len() {
        let version = versions[i];
        let letter = letters[i];
        gives[i] = event::only_if(letter::leaves(letter), version);
        passes[i] = event::every_if((version == 0) | letter::goes_on(letter));
    }
}

// Joins the leaving sets.
pub fn join(versions: &[Set], letters: &[u8], sets: &mut [Set])
    requires versions_len { length versions.now ≡ length sets.old }
    requires letters_len { length letters.now ≡ length sets.old }
    ensures { sets.new
        ≡ table (λ i. bit_or (cond (not (is_n (use_of_byte (get_or letters.now i 0)))) (get_or versions.now i 0) 0) (cond (is_n_or_r (use_of_byte (get_or letters.now i 0))) (get_or sets.old i 0) 0))
        (length sets.old) }
{
    for i in 0..sets.len() {
        let letter = letters[i];
        let leaving = event::only_if(letter::leaves(letter), versions[i]);
        sets[i] = leaving | event::only_if(letter::goes_on(letter), sets[i]);
    }
}

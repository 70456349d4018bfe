// The letter of a label, from its set of use; and tests of its byte (document 01, "Labels").
ghost use Rattle.std.specs.Prelude.{◌≡◌, not};
ghost use Rattle.labels.specs.Kept.{is_n_or_r};
ghost use Rattle.labels.specs.Letters.{use_of_byte};
ghost use Rattle.labels.specs.Uses.{letter_of, is_n};

use crate::Use;
use sets::{Half, Set};

// The letter that a set of use says.
pub fn of_set(half: Half) -> Use
    ensures { result ≡ letter_of half }
{
    let set = half as Set;
    let reference = sets::member(set, 0);
    if !reference {
        return Use::N;
    }
    let value = sets::member(set, 1);
    if !value {
        return Use::D;
    }
    let only_read = sets::member(set, 2) & !sets::member(set, 3);
    if only_read {
        return Use::R;
    }
    Use::W
}

// Any letter but N: the label is kept, and leaves with its version.
pub fn leaves(letter: u8) -> bool
    ensures { result ≡ not (is_n (use_of_byte letter)) }
{
    letter != b'N'
}

// N or R: the kept set goes on to the next label.
pub fn goes_on(letter: u8) -> bool
    ensures { result ≡ is_n_or_r (use_of_byte letter) }
{
    (letter == b'N') | (letter == b'R')
}

// The label rules of document 01 by paths, and as computed: for each label its use, leaving version, reaching set and kept set; and
// refusals 20 and 21. Here are events and letters; the rules are computed in `passes`.
#![tactic(auto)]

pub mod event;
pub mod letter;
pub mod read;

ghost use Rattle.std.specs.Prelude.{◌≡◌};
ghost use Rattle.labels.specs.Letters.{letter_byte, use_of_byte};

// Use, one letter.
#[derive(Clone, Copy, Debug, PartialEq, Eq)]
pub enum Use {
    N,
    D,
    R,
    W,
}

// The letter's byte, as tables and plan have it.
impl From<Use> for u8 {
    ghost from_gives = { λ u b. b ≡ letter_byte u };

    fn from(u: Use) -> u8 {
        match u {
            Use::N => b'N',
            Use::D => b'D',
            Use::R => b'R',
            Use::W => b'W',
        }
    }
}

impl From<u8> for Use {
    ghost from_gives = { λ b u. u ≡ use_of_byte b };

    fn from(b: u8) -> Use {
        match b {
            b'N' => Use::N,
            b'D' => Use::D,
            b'R' => Use::R,
            _ => Use::W,
        }
    }
}

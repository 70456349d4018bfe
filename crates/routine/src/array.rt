// Array records: kind, number of versions, initial version, zero; check 14 (document 01, "Routine file").
ghost use Rattle.std.specs.Prelude.{◌≡◌, ◌+◌, ◌*◌, ◌<◌};
ghost use Rattle.routine.specs.Arrays.{array_record_of, is_argument, is_in, is_in_or_inout, is_out_or_inout, record_check, array_check, check14};
ghost use Rattle.routine.specs.Layout.{arrays};

use crate::header::Header;
use crate::laid::Laid;
use refusal::Refusal;

#[derive(Clone, Copy, Debug, PartialEq, Eq)]
pub struct ArrayRecord {
    pub kind: u8,
    pub versions: u8,
    pub initial: u8,
    pub zero: u8,
}

impl ArrayRecord {
    // Bytes of a record; how many a routine has.
    pub const SIZE: usize = 4;

    pub const MIN: usize = 1;

    pub const MAX: usize = 8;

    // The kinds; the last three are arguments.
    pub const LOCAL: u8 = 0;

    pub const IN: u8 = 1;

    pub const OUT: u8 = 2;

    pub const INOUT: u8 = 3;

    pub const MIN_VERSIONS: u8 = 1;

    pub const MAX_VERSIONS: u8 = sets::WIDTH as u8;

    pub fn from_bytes(b: [u8; ArrayRecord::SIZE]) -> ArrayRecord
        ensures { result ≡ array_record_of b }
    {
        ArrayRecord {
            kind: b[0],
            versions: b[1],
            initial: b[2],
            zero: b[3],
        }
    }

    pub fn is_argument(self) -> bool
        ensures { result ≡ is_argument self.kind }
    {
        self.kind != ArrayRecord::LOCAL
    }

    pub fn is_in(self) -> bool
        ensures { result ≡ is_in self.kind }
    {
        self.kind == ArrayRecord::IN
    }

    pub fn is_in_or_inout(self) -> bool
        ensures { result ≡ is_in_or_inout self.kind }
    {
        (self.kind == ArrayRecord::IN) | (self.kind == ArrayRecord::INOUT)
    }

    pub fn is_out_or_inout(self) -> bool
        ensures { result ≡ is_out_or_inout self.kind }
    {
        (self.kind == ArrayRecord::OUT) | (self.kind == ArrayRecord::INOUT)
    }

    // The first byte outside its limits, for a record that starts at `at`.
    fn check(self, at: usize) -> Result<(), Refusal>
        requires { at < 100 }
        ensures { result ≡ record_check self at }
    {
        if self.kind > ArrayRecord::INOUT {
            return Err(Refusal::WrongArrayByte { byte: at });
        }
        if !(ArrayRecord::MIN_VERSIONS..=ArrayRecord::MAX_VERSIONS).contains(&self.versions) {
            return Err(Refusal::WrongArrayByte { byte: at + 1 });
        }
        if self.initial >= self.versions {
            return Err(Refusal::WrongArrayByte { byte: at + 2 });
        }
        if self.zero != 0 {
            return Err(Refusal::WrongArrayByte { byte: at + 3 });
        }
        Ok(())
    }
}

fn check(laid: &Laid, a: usize) -> Result<(), Refusal>
    requires { a < arrays laid.now.bytes }
    ensures { result ≡ array_check laid.now.bytes a }
{
    laid.array(a).check(Header::SIZE + ArrayRecord::SIZE * a)
}

// Check 14.
pub fn check_all(laid: &Laid) -> Result<(), Refusal>
    ensures { result ≡ check14 laid.now.bytes }
{
    for a in 0..laid.arrays() {
        check(laid, a)?;
    }
    Ok(())
}

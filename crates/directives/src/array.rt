// Arrays: kind, template, exchanged, zero.
ghost use Rattle.std.specs.Prelude.{◌≡◌, ◌+◌, ◌≤◌, ◌<◌, get_or};
ghost use Rattle.words.specs.Tables.{rows};
ghost use Rattle.directives.specs.Directives.{alignment_at};
ghost use Rattle.directives.specs.Fields.{in_order, array_fields};
ghost use Rattle.directives.specs.Layout.{arrays, array_at, longest};

use crate::field;
use crate::laid::Laid;
use refusal::Refusal;
use routine::array::ArrayRecord;

// With a template, straight (0) or with the two dimensions exchanged (1).
#[derive(Clone, Copy, Debug, PartialEq, Eq)]
pub struct Alignment {
    pub template: usize,
    pub exchanged: usize,
}

// The alignment that starts at `at`.
pub fn alignment_at(file: &[u8], at: usize) -> Alignment
    requires { at ≤ longest }
    ensures { result ≡ alignment_at file.now at }
{
    Alignment {
        template: field::byte_at(file, at),
        exchanged: field::byte_at(file, at + 1),
    }
}

// Where array a stands.
fn place(laid: &Laid, a: usize) -> usize
    requires { a < arrays laid.now.bytes }
    ensures value { result ≡ array_at laid.now.bytes a }
    ensures result_bound { result + 4 ≤ longest }
{
    laid.arrays_at() + ArrayRecord::SIZE * a
}

// The kind of array a.
pub fn kind(laid: &Laid, a: usize) -> u8
    requires { a < arrays laid.now.bytes }
    ensures { result ≡ get_or laid.now.bytes (array_at laid.now.bytes a) 0 }
{
    laid.byte_at(place(laid, a)) as u8
}

// The alignment with which array a starts.
pub fn initial_alignment(laid: &Laid, a: usize) -> Alignment
    requires { a < arrays laid.now.bytes }
    ensures { result ≡ alignment_at laid.now.bytes (array_at laid.now.bytes a + 1) }
{
    alignment_at(laid.bytes(), place(laid, a) + 1)
}

fn check(laid: &Laid, a: usize) -> Result<(), Refusal>
    requires { a < arrays laid.now.bytes }
    ensures { result ≡ in_order laid.now.bytes (array_fields laid.now.bytes a) }
{
    let at = place(laid, a);
    let kind = laid.byte_at(at);
    let template = laid.byte_at(at + 1);
    let exchanged = laid.byte_at(at + 2);
    let zero = laid.byte_at(at + 3);
    laid.check(at, 1, kind <= ArrayRecord::INOUT as usize)?;
    laid.check(at + 1, 1, template < laid.templates())?;
    laid.check(at + 2, 1, exchanged <= 1)?;
    laid.check(at + 3, 1, zero == 0)
}

pub fn check_all(laid: &Laid) -> Result<(), Refusal>
    ensures { result ≡ in_order laid.now.bytes (rows (array_fields laid.now.bytes) (arrays laid.now.bytes)) }
{
    for a in 0..laid.arrays() {
        check(laid, a)?;
    }
    Ok(())
}

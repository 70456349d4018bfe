// Spreads: how two dimensions are spread, four bytes each: kind, zero, b.
ghost use Rattle.std.specs.Prelude.{◌≡◌, cond, ◌+◌, ◌≤◌, eqb, ltb};
ghost use Rattle.words.specs.Tables.{rows};
ghost use Rattle.directives.specs.Directives.{dimension_at, spread_at};
ghost use Rattle.directives.specs.Fields.{in_order, dimension_fields, spread_fields, template_fields};
ghost use Rattle.directives.specs.Layout.{templates, longest};

use crate::field;
use crate::header::Header;
use crate::laid::Laid;
use refusal::Refusal;

// Each dimension as it is written: 0 not spread, 1 block, 2 + 256 b cyclic(b).
#[derive(Clone, Copy, Debug, PartialEq, Eq)]
pub struct Mapping {
    pub first: usize,
    pub second: usize,
}

impl Mapping {
    // Bytes of a spread.
    pub const SIZE: usize = 8;
}

// The highest kind.
pub const CYCLIC: usize = 2;

// The dimension that starts at `at`.
fn dimension(file: &[u8], at: usize) -> usize
    requires { at + 4 ≤ longest }
    ensures { result ≡ dimension_at file.now at }
{
    field::byte_at(file, at) + 256 * field::word_at(file, at + 2)
}

// The spread that starts at `at`.
pub fn at(file: &[u8], at: usize) -> Mapping
    requires { at + 8 ≤ longest }
    ensures { result ≡ spread_at file.now at }
{
    Mapping {
        first: dimension(file, at),
        second: dimension(file, at + 4),
    }
}

// Whether b fits the kind: 1 to 65,535 for cyclic, else 0.
fn fits_kind(b: usize, kind: usize) -> bool
    ensures { result ≡ cond (eqb kind 2) (ltb 0 b) (eqb b 0) }
{
    if kind == CYCLIC { b > 0 } else { b == 0 }
}

// A dimension of no kind above `highest`.
fn check_dimension(file: &[u8], highest: usize, at: usize) -> Result<(), Refusal>
    requires { at + 4 ≤ longest }
    ensures { result ≡ in_order file.now (dimension_fields file.now highest at) }
{
    let kind = field::byte_at(file, at);
    let zero = field::byte_at(file, at + 1);
    let b = field::word_at(file, at + 2);
    field::check(file, at, 1, kind <= highest)?;
    field::check(file, at + 1, 1, zero == 0)?;
    field::check(file, at + 2, 2, fits_kind(b, kind))
}

// A spread of no kind above `highest`.
pub fn check(file: &[u8], highest: usize, at: usize) -> Result<(), Refusal>
    requires { at + 8 ≤ longest }
    ensures { result ≡ in_order file.now (spread_fields file.now highest at) }
{
    check_dimension(file, highest, at)?;
    check_dimension(file, highest, at + 4)
}

// The templates.
pub fn check_templates(laid: &Laid) -> Result<(), Refusal>
    ensures { result ≡ in_order laid.now.bytes (rows (template_fields laid.now.bytes) (templates laid.now.bytes)) }
{
    for t in 0..laid.templates() {
        check(laid.bytes(), CYCLIC, Header::SIZE + Mapping::SIZE * t)?;
    }
    Ok(())
}

// Vertices: a directive of twelve bytes, then a byte for each array.
ghost use Rattle.std.specs.Prelude.{◌≡◌, not, ◌&&◌, ◌||◌, ◌+◌, ◌≤◌, ◌<◌, eqb, get_or};
ghost use Rattle.words.specs.Tables.{rows};
ghost use Rattle.routine.specs.Actions.{action_of, is_reference};
ghost use Rattle.directives.specs.Directives as D;
ghost use Rattle.directives.specs.Fields as F;
ghost use Rattle.directives.specs.Layout.{arrays, vertices, vertex_at, reference_at, longest};

use crate::array::Alignment;
use crate::laid::Laid;
use crate::spread::Mapping;
use crate::{array, spread};
use refusal::Refusal;
use routine::action::Action;

// What a vertex says: nothing, realign an array, or redistribute a template.
#[derive(Clone, Copy, Debug, PartialEq, Eq)]
pub enum Directive {
    Nothing,
    Realign(usize, Alignment),
    Redistribute(usize, Mapping),
}

impl Directive {
    // Bytes of a directive.
    pub const SIZE: usize = 12;
}

// Its first byte, as check 40 judges it, which goes by order (`d <= highest`) and meets any byte.
const NOTHING: usize = 0;

const REALIGN: usize = 1;

const REDISTRIBUTE: usize = 2;

// Where vertex v stands.
fn place(laid: &Laid, v: usize) -> usize
    requires { v < vertices laid.now.bytes }
    ensures value { result ≡ vertex_at laid.now.bytes v }
    ensures file_bound { result + 12 + arrays laid.now.bytes ≤ longest }
{
    laid.vertices_at() + v * (Directive::SIZE + laid.arrays())
}

// What vertex v says.
pub fn at(laid: &Laid, v: usize) -> Directive
    requires { v < vertices laid.now.bytes }
    ensures { result ≡ D.directive laid.now.bytes v }
{
    let at = place(laid, v);
    let d = laid.byte_at(at);
    let subject = laid.byte_at(at + 1);
    match d {
        REALIGN => Directive::Realign(subject, array::alignment_at(laid.bytes(), at + 2)),
        REDISTRIBUTE => Directive::Redistribute(subject, spread::at(laid.bytes(), at + 4)),
        _ => Directive::Nothing,
    }
}

// The byte of vertex v for array a.
pub fn reference(laid: &Laid, v: usize, a: usize) -> u8
    requires v_bound { v < vertices laid.now.bytes }
    requires a_bound { a < arrays laid.now.bytes }
    ensures { result ≡ get_or laid.now.bytes (reference_at laid.now.bytes v a) 0 }
{
    laid.byte_at(place(laid, v) + Directive::SIZE + a) as u8
}

// Whether v is the entry or the exit.
fn is_entry_or_exit(laid: &Laid, v: usize) -> bool
    ensures { result ≡ F.is_entry_or_exit laid.now.bytes v }
{
    (v == 0) | (v == laid.vertices() - 1)
}

// How many subjects there are: arrays for a realign, templates for a redistribute, else 0 alone.
fn subjects(laid: &Laid, d: usize) -> usize
    ensures { result ≡ F.subjects laid.now.bytes d }
{
    match d {
        REALIGN => laid.arrays(),
        REDISTRIBUTE => laid.templates(),
        _ => 1,
    }
}

// Directive, subject, template and exchanged.
fn check_directive(laid: &Laid, v: usize) -> Result<(), Refusal>
    requires { v < vertices laid.now.bytes }
    ensures { result ≡ F.in_order laid.now.bytes (F.directive_fields laid.now.bytes v) }
{
    let at = place(laid, v);
    let d = laid.byte_at(at);
    let highest = if is_entry_or_exit(laid, v) {
        NOTHING
    } else {
        REDISTRIBUTE
    };
    let templates = if d == REALIGN { laid.templates() } else { 1 };
    let exchanges = if d == REALIGN { 1 } else { 0 };
    let subject = laid.byte_at(at + 1);
    let template = laid.byte_at(at + 2);
    let exchanged = laid.byte_at(at + 3);
    laid.check(at, 1, d <= highest)?;
    laid.check(at + 1, 1, subject < subjects(laid, d))?;
    laid.check(at + 2, 1, template < templates)?;
    laid.check(at + 3, 1, exchanged <= exchanges)
}

// The spread of a redistribute, else all 0.
fn check_given(laid: &Laid, v: usize) -> Result<(), Refusal>
    requires { v < vertices laid.now.bytes }
    ensures { result ≡ F.in_order laid.now.bytes (F.given_fields laid.now.bytes v) }
{
    let at = place(laid, v);
    let d = laid.byte_at(at);
    let highest = if d == REDISTRIBUTE { spread::CYCLIC } else { 0 };
    spread::check(laid.bytes(), highest, at + 4)
}

// Whether a byte for an array is right: 00, or a reference where one may stand.
fn is_right(b: u8, free: bool) -> bool
    ensures { result ≡ (eqb b 0 || (is_reference (action_of b) && free)) }
{
    (b == 0) | (Action::from(b).is_reference() & free)
}

// A byte for each array.
fn check_references(laid: &Laid, v: usize) -> Result<(), Refusal>
    requires { v < vertices laid.now.bytes }
    ensures { result ≡ F.in_order laid.now.bytes (F.reference_fields laid.now.bytes v) }
{
    let at = place(laid, v);
    let free = (laid.byte_at(at) == NOTHING) & !is_entry_or_exit(laid, v);
    for a in 0..laid.arrays() {
        let right = is_right(reference(laid, v, a), free);
        laid.check(at + Directive::SIZE + a, 1, right)?;
    }
    Ok(())
}

fn check(laid: &Laid, v: usize) -> Result<(), Refusal>
    requires { v < vertices laid.now.bytes }
    ensures { result ≡ F.in_order laid.now.bytes (F.vertex_fields laid.now.bytes v) }
{
    check_directive(laid, v)?;
    check_given(laid, v)?;
    check_references(laid, v)
}

pub fn check_all(laid: &Laid) -> Result<(), Refusal>
    ensures { result ≡ F.in_order laid.now.bytes (rows (F.vertex_fields laid.now.bytes) (vertices laid.now.bytes)) }
{
    for v in 0..laid.vertices() {
        check(laid, v)?;
    }
    Ok(())
}

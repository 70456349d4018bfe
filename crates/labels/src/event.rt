// Events: what a vertex does with an array once entry and exit are labels (document 01, "Labels").
ghost use Rattle.std.specs.Prelude.{◌≡◌, cond, not, ◌&&◌, ◌<◌};
ghost use Rattle.labels.specs.Events.{event, version_of, version_set};
ghost use Rattle.labels.specs.Uses.{is_n, use_gives, passes_by};
ghost use Rattle.routine.specs.Actions.{is_remap};
ghost use Rattle.routine.specs.Layout.{arrays, vertices};
ghost use Rattle.sets.specs.Sets.{every_half, width};

use crate::Use;
use routine::action::{Access, Action};
use routine::laid::Laid;
use sets::{Half, Set};

// What vertex v does with array a.
pub fn at(laid: &Laid, a: usize, v: usize) -> Action
    requires a_bound { a < arrays laid.now.bytes }
    requires v_bound { v < vertices laid.now.bytes }
    ensures { result ≡ event laid.now.bytes a v }
{
    let r = laid.array(a);
    let label = (v == 0) | ((v == laid.vertices() - 1) & r.is_out_or_inout());
    if label {
        return Action::Remap(r.initial);
    }
    laid.action(a, v)
}

// A label is a remapping.
fn is_label(x: Action) -> bool
    ensures { result ≡ is_remap x }
{
    x.is_remap()
}

fn is_n(u: Use) -> bool
    ensures { result ≡ is_n u }
{
    matches!(u, Use::N)
}

// Whether an event of this letter is a kept label.
pub fn is_kept(x: Action, u: Use) -> bool
    ensures { result ≡ (is_remap x && not (is_n u)) }
{
    is_label(x) & !is_n(u)
}

// A label's version.
fn version_of(x: Action) -> u8
    ensures { result ≡ version_of x }
{
    if let Action::Remap(k) = x { k } else { 0 }
}

// A set of versions, or a half of one.
pub trait Versions: Copy {
    ghost none: { Self };

    fn none() -> Self
        ensures { result ≡ none };
}

impl Versions for Set {
    ghost none = { 0 };

    fn none() -> Set {
        0
    }
}

impl Versions for Half {
    ghost none = { 0 };

    fn none() -> Half {
        0
    }
}

// These versions, or none.
pub fn only_if<V: Versions>(given: bool, versions: V) -> V
    ensures { result ≡ cond given versions V.none }
{
    if given { versions } else { V::none() }
}

// A label's version as a set, or the empty set.
pub fn version_set(x: Action) -> Set
    requires { version_of x < width }
    ensures { result ≡ version_set x }
{
    only_if(is_label(x), sets::single(version_of(x)))
}

// Every version of a half, or none.
pub fn every_if(pass: bool) -> Half
    ensures { result ≡ cond pass every_half 0 }
{
    only_if(pass, sets::EVERY_HALF)
}

// What an event gives to the sets of use.
pub fn gives_of(x: Action) -> Half
    ensures { result ≡ use_gives x }
{
    match x {
        Action::Nothing => 0b0000,
        Action::Reference(Access::Read) => 0b0111,
        Action::Reference(Access::Define) => 0b1001,
        Action::Reference(Access::Modify) => 0b1011,
        Action::Reference(Access::Kill) => 0b1001,
        Action::Remap(_) => 0b0010,
        Action::Unknown => 0b0000,
    }
}

// What an event that gives this passes of the sets of use: a label nothing, a define all but bit 1.
pub fn passes_by(gives: Half) -> Half
    ensures { result ≡ passes_by gives }
{
    match gives {
        0b0010 => 0b0000,
        0b1001 => 0b1101,
        _ => 0b1111,
    }
}

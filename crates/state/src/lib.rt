// One array's run state, and the run rules over it (document 01, "Run"): by value, with the stamp of its current copy; the stamps of all
// other versions stand in one table beside the states.
#![tactic(auto)]

ghost use Rattle.std.specs.Prelude.{◌≡◌, cond, ℕ, ◌+◌, ◌*◌, ◌<◌, eqb, length};
ghost use Rattle.labels.specs.Letters.{use_of_byte};
ghost use Rattle.sets.specs.Sets.{width};
ghost use Rattle.state.specs.Carrying.{bare, carrying, Carries, Sound, Visits, Labelled, Relabelled};
ghost use Rattle.state.specs.Cleaning.{current_set, callers};
ghost use Rattle.state.specs.Computed.{no_copies, single_copy, target_stamp_by, taken, shifted, cleaned_by, stored_at};
ghost use Rattle.state.specs.Exit.{left};
ghost use Rattle.state.specs.Moves.{moves, is_d, copies_stamp};
ghost use Rattle.state.specs.Stamps.{stamp_by};
ghost use Rattle.state.specs.Start.{started};
ghost use Rattle.state.specs.States.{State, has_current, Current};

use labels::{Use, event};
use routine::action::{Access, Action};
use routine::array::ArrayRecord;
use sets::{Set, WIDTH};

// An array's state as it is carried along the path: the current version, or 255 for none; the set of live versions; the copies counted;
// the stamp of the current copy.
#[derive(Clone, Copy)]
pub struct Carried {
    pub current: u8,
    pub live: Set,
    pub copies: u16,
    pub stamp: u16,
}

// No current copy: a number and no `Option`, since the definition of a state, and a byte of the report, have 255 for it.
const NONE: u8 = 255;

// The table of stamps: a row for each array, an entry for each version.
pub const STAMPS: usize = ArrayRecord::MAX * WIDTH;

// No copies: none current, none live.
pub fn empty(copies: u16) -> Carried
    ensures { result ≡ no_copies copies }
{
    Carried {
        current: NONE,
        live: 0,
        copies,
        stamp: 0,
    }
}

// One copy: version k, live and current.
fn one_copy(k: u8, stamp: u16, copies: u16) -> Carried
    requires { k < width }
    ensures { result ≡ single_copy k stamp copies }
{
    Carried {
        current: k,
        live: sets::single(k),
        copies,
        stamp,
    }
}

// Before the first step, beside a row of stamps that has 0 for the caller's version.
pub fn start(r: ArrayRecord) -> Carried
    requires { r.initial < width }
    ensures { (row : ℕ → ℕ) → row r.initial ≡ 0 → Carries (callers r) (started r) result row }
{
    let own = r.is_in_or_inout();
    if !own {
        return empty(0);
    }
    one_copy(r.initial, 65535, 0)
}

// The same with another stamp of the current copy.
pub fn with_stamp(c: Carried, stamp: u16) -> Carried
    ensures { result ≡ carrying stamp c }
{
    Carried {
        current: c.current,
        live: c.live,
        copies: c.copies,
        stamp,
    }
}

// D: the value is overwritten, so it is not copied.
fn is_d(u: Use) -> bool
    ensures { result ≡ is_d u }
{
    match u {
        Use::N => false,
        Use::D => true,
        Use::R => false,
        Use::W => false,
    }
}

// One copy more, if a stamp is copied.
fn counted(copies: u16, copied: bool) -> u16
    requires { copies < 65535 }
    ensures { result ≡ copies + cond copied 1 0 }
{
    if copied {
        return copies + 1;
    }
    copies
}

impl Carried {
    // Whether a copy is current.
    fn has_current(self) -> bool
        ensures { result ≡ has_current (bare self) }
    {
        self.current != NONE
    }

    // Whether a label of letter u and version t takes its target up.
    fn takes_up(self, u: Use, t: u8) -> bool
        ensures { result ≡ moves u t (bare self) }
    {
        event::is_kept(Action::Remap(t), u) & (self.current != t)
    }

    // Whether it copies a stamp.
    fn copies_stamp(self, u: Use, t: u8) -> bool
        requires { t < width }
        ensures { result ≡ copies_stamp u t (bare self) }
    {
        self.takes_up(u, t) & (!sets::member(self.live, t) & (!is_d(u) & self.has_current()))
    }

    // The target's stamp, where the row has `held` for it: copied; or its own if it is live; or 0.
    fn target_stamp(self, t: u8, copied: bool, held: u16) -> u16
        requires { t < width }
        ensures { result ≡ target_stamp_by t copied held self }
    {
        if copied {
            return self.stamp;
        }
        let live = sets::member(self.live, t);
        if live {
            return held;
        }
        0
    }

    // The target is taken up.
    fn taken(self, t: u8, copied: bool, held: u16) -> Carried
        requires t_lt_width { t < width }
        requires copies_bound { self.copies < 65535 }
        ensures { result ≡ taken t copied held self }
    {
        let stamp = self.target_stamp(t, copied, held);
        let live = self.live | sets::single(t);
        let copies = counted(self.copies, copied);
        Carried {
            current: t,
            live,
            copies,
            stamp,
        }
    }

    // The move at a label of letter u and version t.
    fn shifted(self, u: Use, t: u8, held: u16) -> Carried
        requires t_lt_width { t < width }
        requires copies_bound { self.copies < 65535 }
        ensures { result ≡ shifted u t held self }
    {
        let takes = self.takes_up(u, t);
        if !takes {
            return self;
        }
        let copied = self.copies_stamp(u, t);
        self.taken(t, copied, held)
    }

    // The stamp of version k, where the row has `held` for it.
    fn stamp_of(self, k: u8, held: u16) -> u16
        ensures { result ≡ cond (eqb self.current k) self.stamp held }
    {
        if self.current == k {
            return self.stamp;
        }
        held
    }

    // The current copy as a set.
    fn current_set(self) -> Set
        requires { Current (bare self) }
        ensures { result ≡ current_set (bare self) }
    {
        let current = self.has_current();
        if current {
            return sets::single(self.current);
        }
        0
    }

    // The cleaning at a label with this kept set: what is kept or current stays live. A dead version's stamp is never used, so none is
    // cleared.
    fn cleaned(self, keep: Set) -> Carried
        requires { Current (bare self) }
        ensures { result ≡ cleaned_by keep self }
    {
        let current = self.current_set();
        Carried {
            current: self.current,
            live: self.live & (keep | current),
            copies: self.copies,
            stamp: self.stamp,
        }
    }
}

// A label: the move, then the cleaning. The letter is a byte of the table; `held` is what the row has for version t.
pub fn labelled_by(c: Carried, letter: u8, t: u8, keep: Set, held: u16) -> Carried
    requires t_lt_width { t < width }
    requires sound { Sound c }
    ensures { Labelled (use_of_byte letter) t keep held c result }
{
    let u = Use::from(letter);
    c.shifted(u, t, held).cleaned(keep)
}

// The same label on a state that is lent.
pub fn step(c: &mut Carried, letter: u8, t: u8, keep: Set, held: u16)
    requires t_lt_width { t < width }
    requires sound { Sound c.old }
    ensures { Labelled (use_of_byte letter) t keep held c.old c.new }
{
    *c = labelled_by(*c, letter, t, keep, held);
}

// The lent step, for a state by value.
pub fn stepped(c: Carried, letter: u8, t: u8, keep: Set, held: u16) -> Carried
    requires t_lt_width { t < width }
    requires sound { Sound c }
    ensures { Labelled (use_of_byte letter) t keep held c result }
{
    let mut next = c;
    step(&mut next, letter, t, keep, held);
    next
}

// The stamp of the current copy after an event that is no label: a define or modify gives the step number, a kill 0.
pub fn stamp_after(x: Action, step: u16, stamp: u16) -> u16
    ensures { result ≡ stamp_by x step stamp }
{
    match x {
        Action::Nothing => stamp,
        Action::Reference(access) => match access {
            Access::Read => stamp,
            Access::Define => step,
            Access::Modify => step,
            Access::Kill => 0,
        },
        Action::Remap(_) => stamp,
        Action::Unknown => stamp,
    }
}

// The stamp of the current copy goes back to its place in array a's row.
fn store(c: Carried, others: &mut [u16; STAMPS], a: usize)
    requires a_bound { (a < 8) × (length others.old ≡ 8 * width) }
    requires current { Current (bare c) }
    ensures { others.new ≡ stored_at c a others.old }
{
    let current = c.has_current();
    if current {
        let at = WIDTH * a + c.current as usize;
        others[at] = c.stamp;
    }
}

// Array a at one vertex, by its event, letter and kept set, if it is a label: the target's entry is read, the stamp of the copy that may be
// left goes back to its own, and the label is made.
pub fn relabelled(
    c: Carried,
    others: &mut [u16; STAMPS],
    a: usize,
    x: Action,
    letter: u8,
    keep: Set,
) -> Carried
    requires a_bound { (a < 8) × (length others.old ≡ 8 * width) }
    requires visits { Visits x c }
    ensures { Relabelled x (use_of_byte letter) keep a c others.old result others.new }
{
    match x {
        Action::Nothing => c,
        Action::Reference(_) => c,
        Action::Remap(t) => {
            let at = WIDTH * a + t as usize;
            let held = others[at];
            store(c, others, a);
            stepped(c, letter, t, keep, held)
        }
        Action::Unknown => c,
    }
}

// At the exit an in argument loses all copies but the caller's, for which the row has `held`; local arrays lose all.
pub fn leave(c: Carried, r: ArrayRecord, held: u16, at_exit: bool) -> Carried
    requires { r.initial < width }
    ensures { (s : State) (row : ℕ → ℕ) → Carries (callers r) s c row → held ≡ row r.initial → Carries (callers r) (left r at_exit s) result row }
{
    if !at_exit {
        return c;
    }
    let read_only = r.is_in();
    if read_only {
        let stamp = c.stamp_of(r.initial, held);
        return one_copy(r.initial, stamp, c.copies);
    }
    let argument = r.is_argument();
    if argument {
        return c;
    }
    empty(c.copies)
}

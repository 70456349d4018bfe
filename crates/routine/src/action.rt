// Action bytes, one for each vertex and array (document 01, "Routine file"), calls among them (document 02, request 3); checks 15, 17, 18 and
// 19 (request 2).
ghost use Rattle.std.specs.Prelude.{◌≡◌, ◌<◌, Some};
ghost use Rattle.routine.specs.declared.action.Action.TheVariants.{Unknown};
ghost use Rattle.routine.specs.Actions.{action_of, is_call, called_version, is_reference, is_remap, is_entry_or_exit, differ, row_check, actions_check};
ghost use Rattle.routine.specs.Faults.{FourFaults};
ghost use Rattle.routine.specs.Layout.{vertices};
ghost use Rattle.routine.specs.Rows.{is_wrong, known_reason, reason_of, family_after};

use crate::laid::Laid;
use refusal::Refusal;

// A reference: a read, a define (all of it rewritten, nothing read), a modify (old value needed) or a kill (a define whose new stamp is 0).
#[derive(Clone, Copy, Debug, PartialEq, Eq)]
pub enum Access {
    Read,
    Define,
    Modify,
    Kill,
}

// What a vertex does with an array.
#[derive(Clone, Copy, Debug, PartialEq, Eq)]
pub enum Action {
    Nothing,
    Reference(Access),
    Remap(u8),
    Unknown,
}

// The families of actions, of which a row holds one at most.
#[derive(Clone, Copy, Debug, PartialEq, Eq)]
pub enum Family {
    Reference,
    Remapping,
    Call,
}

impl From<u8> for Action {
    ghost from_gives = { λ b x. x ≡ action_of b };

    fn from(b: u8) -> Action {
        match b {
            0x00 => Action::Nothing,
            0x10 => Action::Reference(Access::Read),
            0x20 => Action::Reference(Access::Define),
            0x30 => Action::Reference(Access::Modify),
            0x80 => Action::Reference(Access::Kill),
            0x40..=0x5f => Action::Remap(b - 0x40),
            _ => Action::Unknown,
        }
    }
}

impl Action {
    pub fn is_reference(self) -> bool
        ensures { result ≡ is_reference self }
    {
        matches!(self, Action::Reference(_))
    }

    pub fn is_remap(self) -> bool
        ensures { result ≡ is_remap self }
    {
        matches!(self, Action::Remap(_))
    }

    // Whether the byte b is at fault: `terminal` in the row of the entry or the exit, `family` that of what stands earlier in its row.
    fn is_wrong(self, b: u8, versions: u8, terminal: bool, family: Option<Family>) -> bool
        requires { self ≡ action_of b }
        ensures { result ≡ is_wrong b versions terminal family }
    {
        match self {
            Action::Nothing => false,
            Action::Reference(_) => terminal | is_other(family, Family::Reference),
            Action::Remap(k) => (k >= versions) | (terminal | is_other(family, Family::Remapping)),
            Action::Unknown => !is_call(b)
                | ((called_version(b) >= versions) | (terminal | is_other(family, Family::Call))),
        }
    }

    // Why it is, at this byte: the lowest number of its faults. 00 is never at fault.
    fn reason(self, b: u8, versions: u8, terminal: bool, byte: usize) -> Refusal
        requires { self ≡ action_of b }
        ensures { result ≡ reason_of b versions terminal byte }
    {
        match self {
            Action::Unknown => call_reason(b, versions, terminal, byte),
            Action::Remap(k) => known_reason(k >= versions, terminal, byte),
            Action::Reference(_) => known_reason(false, terminal, byte),
            Action::Nothing => known_reason(false, false, byte),
        }
    }

    // The family of a row so far, after an action that is not at fault.
    fn family_after(self, family: Option<Family>) -> Option<Family>
        ensures { result ≡ family_after self family }
    {
        match self {
            Action::Nothing => family,
            Action::Reference(_) => Some(Family::Reference),
            Action::Remap(_) => Some(Family::Remapping),
            Action::Unknown => Some(Family::Call),
        }
    }
}

// A call: 60+k passes the array in version k with intent in, A0+k out, C0+k inout, k below 32.
pub fn is_call(b: u8) -> bool
    ensures { result ≡ is_call b }
{
    matches!(b, 0x60..=0x7f | 0xa0..=0xdf)
}

// The version k in which it passes the array.
pub fn called_version(b: u8) -> u8
    ensures { result ≡ called_version b }
{
    b % 32
}

// Whether what stands earlier in a row is of another family.
fn is_other(family: Option<Family>, own: Family) -> bool
    ensures { result ≡ differ (Some own) family }
{
    family.is_some_and(|earlier| earlier != own)
}

// Why a byte is at fault that document 01 does not know.
fn call_reason(b: u8, versions: u8, terminal: bool, byte: usize) -> Refusal
    requires { action_of b ≡ Unknown }
    ensures { result ≡ reason_of b versions terminal byte }
{
    if is_call(b) {
        return known_reason(called_version(b) >= versions, terminal, byte);
    }
    Refusal::UnknownAction { byte }
}

// Why a known action is: first whether its version is too large, then whether it stands in the row of the entry or the exit.
fn known_reason(large: bool, terminal: bool, byte: usize) -> Refusal
    ensures { result ≡ known_reason large terminal byte }
{
    if large {
        return Refusal::VersionTooLarge { byte };
    }
    if terminal {
        return Refusal::ActionAtEntryOrExit { byte };
    }
    Refusal::MixedActions { byte }
}

// Whether v is the entry or the exit.
fn is_terminal(laid: &Laid, v: usize) -> bool
    ensures { result ≡ is_entry_or_exit laid.now.bytes v }
{
    (v == 0) | (v == laid.vertices() - 1)
}

// The action bytes of vertex v.
fn check_row(laid: &Laid, v: usize) -> Result<(), Refusal>
    requires { v < vertices laid.now.bytes }
    ensures { result ≡ row_check laid.now.bytes v }
{
    let terminal = is_terminal(laid, v);
    let mut family = None;
    for a in 0..laid.arrays() {
        let b = laid.action_byte(a, v);
        // most bytes, and never at fault
        if b == 0x00 {
            continue;
        }
        let x = Action::from(b);
        let versions = laid.array(a).versions;
        let wrong = x.is_wrong(b, versions, terminal, family);
        if wrong {
            return Err(x.reason(b, versions, terminal, laid.action_at(a, v)));
        }
        family = x.family_after(family);
    }
    Ok(())
}

// All action bytes, and what request 2 claims of the answer.
pub fn check_all(laid: &Laid) -> Result<(), Refusal>
    ensures value { result ≡ actions_check laid.now.bytes }
    ensures four_faults { FourFaults laid.now.bytes }
{
    for v in 0..laid.vertices() {
        check_row(laid, v)?;
    }
    Ok(())
}

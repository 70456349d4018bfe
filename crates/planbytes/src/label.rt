// One label of the plan: twelve bytes (document 01, "Plan and report").
ghost use Rattle.std.specs.Prelude.{◌≡◌, ◌++◌, ◌≤◌, length, drop};
ghost use Rattle.planbytes.specs.Plan.{twelve_bytes};
ghost use Rattle.planbytes.specs.Tables.{or_none};

use sets::Set;

#[derive(Clone, Copy)]
pub struct Label {
    pub array: u8,
    pub letter: u8,
    pub leaving: Option<u8>,
    pub reaching: Set,
    pub kept: Set,
}

impl Label {
    // Bytes of a label.
    pub const SIZE: usize = 12;
}

// The byte of no version.
const NONE: u8 = 255;

// Writes a label at the front of what is lent.
pub fn write(out: &mut [u8], l: Label)
    requires { 12 ≤ length out.old }
    ensures { out.new ≡ twelve_bytes l.array l.letter (or_none l.leaving) l.reaching l.kept ++ drop 12 out.old }
{
    out[0] = l.array;
    out[1] = l.letter;
    out[2] = l.leaving.unwrap_or(NONE);
    out[3] = 0;
    words::write32(&mut out[4..], l.reaching);
    words::write32(&mut out[8..], l.kept);
}

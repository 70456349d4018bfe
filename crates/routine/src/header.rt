// The file's head: mark, edition, table of contents; checks 10 to 13 (document 01, "Routine file").
ghost use Rattle.std.specs.Prelude.{◌≡◌, ◌+◌, ◌*◌, ◌≤◌, length};
ghost use Rattle.routine.specs.Layout.{header_of, marked, within, check10, check11, check12, check13};
ghost use Rattle.refusal.specs.Checks.{holds};
ghost use Rattle.refusal.specs.declared.Refusal.TheVariants.{CountOutsideLimits};
ghost use Rattle.routine.specs.Reader.{form_check, Limits};

use crate::array::ArrayRecord;
use crate::edge::Edge;
use refusal::Refusal;

// How many arrays, vertices and edges the routine has.
#[derive(Clone, Copy, Debug, PartialEq, Eq)]
pub struct Header {
    pub arrays: usize,
    pub vertices: usize,
    pub edges: usize,
}

impl Header {
    // Bytes of mark, edition and table of contents: the first body stands there.
    pub const SIZE: usize = 18;

    pub const MIN_VERTICES: usize = 2;

    pub const MAX_VERTICES: usize = 256;

    pub const MAX_EDGES: usize = 1024;

    pub fn of(file: &[u8]) -> Header
        requires { 18 ≤ length file.now }
        ensures { result ≡ header_of file.now }
    {
        Header {
            arrays: words::at(file, 8),
            vertices: words::at(file, 12),
            edges: words::at(file, 16),
        }
    }

    // Where the action bytes start.
    pub fn actions_at(self) -> usize
        requires { Limits self }
        ensures { result ≡ 18 + 4 * self.arrays }
    {
        Header::SIZE + ArrayRecord::SIZE * self.arrays
    }

    // Where the edges start.
    pub fn edges_at(self) -> usize
        requires { Limits self }
        ensures { result ≡ 18 + 4 * self.arrays + self.vertices * self.arrays }
    {
        self.actions_at() + self.vertices * self.arrays
    }

    // Where the file ends.
    pub fn end_at(self) -> usize
        requires { Limits self }
        ensures { result ≡ 18 + 4 * self.arrays + self.vertices * self.arrays + 4 * self.edges }
    {
        self.edges_at() + Edge::SIZE * self.edges
    }
}

// The mark, `HPFR`.
fn is_marked(file: &[u8]) -> bool
    requires { 4 ≤ length file.now }
    ensures { result ≡ marked file.now }
{
    file.starts_with(b"HPFR")
}

// Check 10.
fn check_mark(file: &[u8]) -> Result<(), Refusal>
    ensures { result ≡ check10 file.now }
{
    let length = file.len();
    if length < Header::SIZE {
        return Err(Refusal::TooShort { length });
    }
    let marked = is_marked(file);
    if !marked {
        return Err(Refusal::WrongMark);
    }
    Ok(())
}

// Check 11.
fn check_edition(file: &[u8]) -> Result<(), Refusal>
    requires { 18 ≤ length file.now }
    ensures { result ≡ check11 file.now }
{
    let edition = words::at(file, 4);
    if edition != 1 {
        return Err(Refusal::WrongEdition);
    }
    Ok(())
}

// One count of check 12.
fn check_count(n: usize, low: usize, high: usize, byte: usize) -> Result<(), Refusal>
    ensures { result ≡ holds (within low high n) (CountOutsideLimits byte) }
{
    if !(low..=high).contains(&n) {
        return Err(Refusal::CountOutsideLimits { byte });
    }
    Ok(())
}

// Check 12.
fn check_counts(file: &[u8]) -> Result<(), Refusal>
    requires { 18 ≤ length file.now }
    ensures { result ≡ check12 file.now }
{
    let h = Header::of(file);
    check_count(h.arrays, ArrayRecord::MIN, ArrayRecord::MAX, 8)?;
    check_count(h.vertices, Header::MIN_VERTICES, Header::MAX_VERTICES, 12)?;
    check_count(h.edges, 0, Header::MAX_EDGES, 16)
}

// Check 13.
fn check_layout(file: &[u8]) -> Result<(), Refusal>
    requires in_bounds { 18 ≤ length file.now }
    requires limits { Limits (header_of file.now) }
    ensures { result ≡ check13 file.now }
{
    let h = Header::of(file);
    let arrays_offset = words::at(file, 6);
    if arrays_offset != Header::SIZE {
        return Err(Refusal::WrongOffset { byte: 6 });
    }
    let vertices_offset = words::at(file, 10);
    let actions_at = h.actions_at();
    if vertices_offset != actions_at {
        return Err(Refusal::WrongOffset { byte: 10 });
    }
    let edges_offset = words::at(file, 14);
    let edges_at = h.edges_at();
    if edges_offset != edges_at {
        return Err(Refusal::WrongOffset { byte: 14 });
    }
    let end_at = h.end_at();
    if file.len() != end_at {
        return Err(Refusal::WrongLength);
    }
    Ok(())
}

// Checks 10 to 13.
pub fn check_form(file: &[u8]) -> Result<(), Refusal>
    ensures { result ≡ form_check file.now }
{
    check_mark(file)?;
    check_edition(file)?;
    check_counts(file)?;
    check_layout(file)
}

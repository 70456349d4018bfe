// The head of a directive file: mark, edition, table of contents.
ghost use Rattle.std.specs.Prelude.{◌≡◌, ◌+◌, ◌*◌, ◌≤◌, eqb};
ghost use Rattle.directives.specs.Fields.{byte_field, field_check, in_order, mark_fields, contents_fields, head_fields};
ghost use Rattle.directives.specs.Layout.{header_of, longest, Counts};

use crate::field;
use crate::spread::Mapping;
use crate::vertex::Directive;
use refusal::Refusal;
use routine::array::ArrayRecord;
use routine::edge::Edge;

// How many templates, arrays, vertices and edges the file has.
#[derive(Clone, Copy, Debug, PartialEq, Eq)]
pub struct Header {
    pub templates: usize,
    pub arrays: usize,
    pub vertices: usize,
    pub edges: usize,
}

impl Header {
    // Bytes of mark, edition and table of contents: the first body stands there.
    pub const SIZE: usize = 22;

    pub fn of(file: &[u8]) -> Header
        ensures value { result ≡ header_of file.now }
        ensures counts { Counts result }
    {
        Header {
            templates: field::word_at(file, 8),
            arrays: field::word_at(file, 12),
            vertices: field::word_at(file, 16),
            edges: field::word_at(file, 20),
        }
    }

    // Where the arrays start.
    pub fn arrays_at(self) -> usize
        requires { Counts self }
        ensures { result ≡ 22 + 8 * self.templates }
    {
        Header::SIZE + Mapping::SIZE * self.templates
    }

    // Where the vertices start.
    pub fn vertices_at(self) -> usize
        requires { Counts self }
        ensures { result ≡ 22 + 8 * self.templates + 4 * self.arrays }
    {
        self.arrays_at() + ArrayRecord::SIZE * self.arrays
    }

    // Where the edges start.
    pub fn edges_at(self) -> usize
        requires { Counts self }
        ensures { result ≡ 22 + 8 * self.templates + 4 * self.arrays + self.vertices * (12 + self.arrays) }
    {
        self.vertices_at() + self.vertices * (Directive::SIZE + self.arrays)
    }

    // Where the file ends.
    pub fn end_at(self) -> usize
        requires { Counts self }
        ensures { result ≡ 22 + 8 * self.templates + 4 * self.arrays + self.vertices * (12 + self.arrays) + 4 * self.edges }
    {
        self.edges_at() + Edge::SIZE * self.edges
    }
}

// A byte that is given.
fn check_letter(file: &[u8], at: usize, letter: u8) -> Result<(), Refusal>
    requires { at ≤ longest }
    ensures { result ≡ field_check file.now (byte_field file.now at (λ b. eqb b letter)) }
{
    field::check(file, at, 1, field::byte_at(file, at) == letter as usize)
}

// The mark, `HPFD`, and the edition.
fn check_mark(file: &[u8]) -> Result<(), Refusal>
    ensures { result ≡ in_order file.now (mark_fields file.now) }
{
    check_letter(file, 0, b'H')?;
    check_letter(file, 1, b'P')?;
    check_letter(file, 2, b'F')?;
    check_letter(file, 3, b'D')?;
    field::check(file, 4, 2, field::word_at(file, 4) == 1)
}

// An entry of the table of contents: a body's offset, then its count within limits.
fn check_contents(
    file: &[u8],
    at: usize,
    offset: usize,
    low: usize,
    high: usize,
) -> Result<(), Refusal>
    requires { at ≤ 18 }
    ensures { result ≡ in_order file.now (contents_fields file.now at offset low high) }
{
    let follows = field::word_at(file, at) == offset;
    let count = field::word_at(file, at + 2);
    let within = (low <= count) & (count <= high);
    field::check(file, at, 2, follows)?;
    field::check(file, at + 2, 2, within)
}

// Mark and edition; templates 1 to 8, arrays 1 to 8, vertices 2 to 256, edges 0 to 1,024.
pub fn check(file: &[u8]) -> Result<(), Refusal>
    ensures { result ≡ in_order file.now (head_fields file.now) }
{
    let h = Header::of(file);
    check_mark(file)?;
    check_contents(file, 6, Header::SIZE, 1, 8)?;
    check_contents(file, 10, h.arrays_at(), 1, 8)?;
    check_contents(file, 14, h.vertices_at(), 2, 256)?;
    check_contents(file, 18, h.edges_at(), 0, 1024)
}

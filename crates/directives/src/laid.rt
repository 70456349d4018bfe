// A directive file whose head is within the limits: its bytes, and its header. A contract sees the bytes, and that the counts are within
// their limits.
ghost use Rattle.std.specs.Prelude.{◌≡◌, ◌≤◌, ◌<◌, get_or};
ghost use Rattle.words.specs.Words.{word};
ghost use Rattle.directives.specs.Fields.{field_check};
ghost use Rattle.directives.specs.Layout.{templates, arrays, vertices, edges, arrays_at, vertices_at, edges_at, end_at, longest, Heads};

use crate::field;
use crate::header::Header;
use refusal::Refusal;
use std::marker::Model;

#[derive(Drop)]
pub struct Laid<'a> {
    file: &'a [u8],
    header: Header,
    ghost heads: { Heads header file.now },
}

impl<'a> Model for Laid<'a> {
    ghost use Rattle.directives.specs.Read.{LaidFile};

    ghost Value = { LaidFile };

    ghost view = { λ l. record { bytes = l.file.now; limits = l.heads.limits } };
}

impl<'a> Laid<'a> {
    pub fn new(file: &'a [u8], header: Header) -> Laid<'a>
        requires { Heads header file.now }
        ensures { result.bytes ≡ file.now }
    {
        Laid { file, header }
    }

    // Its bytes.
    pub fn bytes(&self) -> &[u8]
        ensures { result.now ≡ self.now.bytes }
    {
        self.file
    }

    pub fn templates(&self) -> usize
        ensures { result ≡ templates self.now.bytes }
    {
        self.header.templates
    }

    pub fn arrays(&self) -> usize
        ensures { result ≡ arrays self.now.bytes }
    {
        self.header.arrays
    }

    pub fn vertices(&self) -> usize
        ensures { result ≡ vertices self.now.bytes }
    {
        self.header.vertices
    }

    pub fn edges(&self) -> usize
        ensures { result ≡ edges self.now.bytes }
    {
        self.header.edges
    }

    // Where the arrays start.
    pub fn arrays_at(&self) -> usize
        ensures { result ≡ arrays_at self.now.bytes }
    {
        self.header.arrays_at()
    }

    // Where the vertices start.
    pub fn vertices_at(&self) -> usize
        ensures { result ≡ vertices_at self.now.bytes }
    {
        self.header.vertices_at()
    }

    // Where the edges start.
    pub fn edges_at(&self) -> usize
        ensures { result ≡ edges_at self.now.bytes }
    {
        self.header.edges_at()
    }

    // Where the file ends.
    pub fn end_at(&self) -> usize
        ensures { result ≡ end_at self.now.bytes }
    {
        self.header.end_at()
    }

    // The byte at `at`.
    pub fn byte_at(&self, at: usize) -> usize
        ensures value { result ≡ get_or self.now.bytes at 0 }
        ensures upper_bound { result < 256 }
    {
        field::byte_at(self.file, at)
    }

    // The 16-bit number at `at`.
    pub fn word_at(&self, at: usize) -> usize
        requires { at ≤ longest }
        ensures value { result ≡ word self.now.bytes at }
        ensures upper_bound { result < 65536 }
    {
        field::word_at(self.file, at)
    }

    // A field of `wide` bytes from `at` on.
    pub fn check(&self, at: usize, wide: usize, right: bool) -> Result<(), Refusal>
        requires at_le_longest { at ≤ longest }
        requires wide_bound { wide ≤ 4 }
        ensures { result ≡ field_check self.now.bytes (record { at = at; wide = wide; right = right }) }
    {
        field::check(self.file, at, wide, right)
    }
}

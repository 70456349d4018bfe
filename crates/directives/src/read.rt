// A directive file that was read: a laid file. A contract sees the bytes, and that check 40 passes them.
ghost use Rattle.std.specs.Prelude.{◌≡◌, ◌+◌, ◌<◌, Ok, get_or};
ghost use Rattle.directives.specs.Directives.{spread_at, alignment_at, directive};
ghost use Rattle.directives.specs.Fields.{check40, DirectivesRead};
ghost use Rattle.directives.specs.Layout.{templates, arrays, vertices, edges, template_at, array_at, reference_at, edge_bytes};

use crate::array::Alignment;
use crate::header::Header;
use crate::laid::Laid;
use crate::spread::Mapping;
use crate::vertex::Directive;
use crate::{array, spread, vertex};
use std::marker::Model;

#[derive(Drop)]
pub struct Directives<'a> {
    laid: Laid<'a>,
    ghost passed: { check40 laid.bytes ≡ Ok tt },
}

impl<'a> Model for Directives<'a> {
    ghost use Rattle.directives.specs.Read.{ReadFile};

    ghost Value = { ReadFile };

    ghost view = { λ d. record { bytes = d.laid.bytes; passed = d.passed } };
}

impl<'a> Directives<'a> {
    pub fn new(file: &'a [u8], header: Header) -> Directives<'a>
        requires { DirectivesRead file.now header }
        ensures { result.bytes ≡ file.now }
    {
        let laid = Laid::new(file, header);
        Directives { laid }
    }

    // Its bytes.
    pub fn bytes(&self) -> &[u8]
        ensures { result.now ≡ self.now.bytes }
    {
        self.laid.bytes()
    }

    pub fn templates(&self) -> usize
        ensures { result ≡ templates self.now.bytes }
    {
        self.laid.templates()
    }

    pub fn arrays(&self) -> usize
        ensures { result ≡ arrays self.now.bytes }
    {
        self.laid.arrays()
    }

    pub fn vertices(&self) -> usize
        ensures { result ≡ vertices self.now.bytes }
    {
        self.laid.vertices()
    }

    pub fn edges(&self) -> usize
        ensures { result ≡ edges self.now.bytes }
    {
        self.laid.edges()
    }

    // The spread with which template t starts.
    pub fn spread(&self, t: usize) -> Mapping
        requires { t < templates self.now.bytes }
        ensures { result ≡ spread_at self.now.bytes (template_at t) }
    {
        spread::at(self.laid.bytes(), Header::SIZE + Mapping::SIZE * t)
    }

    // The kind of array a.
    pub fn kind(&self, a: usize) -> u8
        requires { a < arrays self.now.bytes }
        ensures { result ≡ get_or self.now.bytes (array_at self.now.bytes a) 0 }
    {
        array::kind(&self.laid, a)
    }

    // The alignment with which array a starts.
    pub fn alignment(&self, a: usize) -> Alignment
        requires { a < arrays self.now.bytes }
        ensures { result ≡ alignment_at self.now.bytes (array_at self.now.bytes a + 1) }
    {
        array::initial_alignment(&self.laid, a)
    }

    // What vertex v says.
    pub fn directive(&self, v: usize) -> Directive
        requires { v < vertices self.now.bytes }
        ensures { result ≡ directive self.now.bytes v }
    {
        vertex::at(&self.laid, v)
    }

    // The byte of vertex v for array a.
    pub fn reference(&self, v: usize, a: usize) -> u8
        requires v_bound { v < vertices self.now.bytes }
        requires a_bound { a < arrays self.now.bytes }
        ensures { result ≡ get_or self.now.bytes (reference_at self.now.bytes v a) 0 }
    {
        vertex::reference(&self.laid, v, a)
    }

    // The bytes of all edges.
    pub fn edge_bytes(&self) -> &[u8]
        ensures { result.now ≡ edge_bytes self.now.bytes }
    {
        &self.laid.bytes()[self.laid.edges_at()..]
    }
}

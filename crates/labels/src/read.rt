// A routine that was read: its bytes, and its header. A contract sees the bytes, and that all holds of them which the label rules ask.
ghost use Rattle.std.specs.Prelude.{◌≡◌, ◌<◌, length};
ghost use Rattle.labels.specs.Events.{event, edge_bytes};
ghost use Rattle.labels.specs.Routines.{ReadAs};
ghost use Rattle.routine.specs.Actions.{action, action_byte};
ghost use Rattle.routine.specs.Arrays.{array_of};
ghost use Rattle.routine.specs.Edges.{edge_of};
ghost use Rattle.routine.specs.Layout.{arrays, vertices, edges, header_of};
ghost use Rattle.routine.specs.Reader.{WellFormed};
ghost use Rattle.words.specs.Tables.{table};

use crate::event;
use routine::action::Action;
use routine::array::ArrayRecord;
use routine::edge::Edge;
use routine::header::Header;
use routine::laid::Laid;
use std::marker::Model;

#[derive(Drop)]
pub struct Routine<'a> {
    laid: Laid<'a>,
    ghost well: { WellFormed laid.bytes },
}

impl<'a> Model for Routine<'a> {
    ghost use Rattle.labels.specs.Routines.{Read};

    ghost Value = { Read };

    ghost view = { λ r. record { bytes = r.laid.bytes; well = r.well } };
}

impl<'a> Routine<'a> {
    pub fn new(file: &'a [u8], header: Header) -> Routine<'a>
        requires { ReadAs file.now header }
        ensures { result.bytes ≡ file.now }
    {
        Routine {
            laid: Laid::new(file, header),
        }
    }

    // Its bytes.
    pub fn bytes(&self) -> &[u8]
        ensures { result.now ≡ self.now.bytes }
    {
        self.laid.bytes()
    }

    pub fn header(&self) -> Header
        ensures value { result ≡ header_of self.now.bytes }
        ensures read { ReadAs self.now.bytes result }
    {
        self.laid.header()
    }

    pub fn arrays(&self) -> usize
        ensures { result ≡ arrays self.now.bytes }
    {
        self.laid.arrays()
    }

    pub fn vertices(&self) -> usize
        ensures { result ≡ vertices self.now.bytes }
    {
        self.laid.vertices()
    }

    pub fn edges(&self) -> usize
        ensures { result ≡ edges self.now.bytes }
    {
        self.laid.edges()
    }

    // The record of array a.
    pub fn array(&self, a: usize) -> ArrayRecord
        requires { a < arrays self.now.bytes }
        ensures { result ≡ array_of self.now.bytes a }
    {
        self.laid.array(a)
    }

    // The action bytes of vertex v, one for each array.
    pub fn row(&self, v: usize) -> &[u8]
        requires { v < vertices self.now.bytes }
        ensures { result.now ≡ table (λ a. action_byte self.now.bytes a v) (arrays self.now.bytes) }
    {
        let h = self.laid.header();
        let at = h.actions_at() + v * h.arrays;
        let end = at + h.arrays;
        &self.laid.bytes()[at..end]
    }

    // What vertex v does with array a.
    pub fn action(&self, a: usize, v: usize) -> Action
        requires a_bound { a < arrays self.now.bytes }
        requires v_bound { v < vertices self.now.bytes }
        ensures { result ≡ action self.now.bytes a v }
    {
        self.laid.action(a, v)
    }

    // The same once entry and exit are labels.
    pub fn event(&self, a: usize, v: usize) -> Action
        requires a_bound { a < arrays self.now.bytes }
        requires v_bound { v < vertices self.now.bytes }
        ensures { result ≡ event self.now.bytes a v }
    {
        event::at(&self.laid, a, v)
    }

    // Edge i.
    pub fn edge(&self, i: usize) -> Edge
        requires { i < edges self.now.bytes }
        ensures { result ≡ edge_of self.now.bytes i }
    {
        self.laid.edge(i)
    }

    // The bytes of all edges.
    pub fn edge_bytes(&self) -> &[u8]
        ensures { result.now ≡ edge_bytes self.now.bytes }
    {
        let h = self.laid.header();
        &self.laid.bytes()[h.edges_at()..]
    }
}

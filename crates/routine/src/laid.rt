// A file that checks 10 to 13 have passed: its bytes, and its header. A contract sees the bytes, and that the bodies fill them.
ghost use Rattle.std.specs.Prelude.{◌≡◌, ◌+◌, ◌<◌, length};
ghost use Rattle.routine.specs.Actions.{action, action_byte};
ghost use Rattle.routine.specs.Arrays.{array_of};
ghost use Rattle.routine.specs.Edges.{edge_of};
ghost use Rattle.routine.specs.Layout.{arrays, vertices, edges, header_of, action_at, edge_at};
ghost use Rattle.routine.specs.Reader.{Heads};

use crate::action::Action;
use crate::array::ArrayRecord;
use crate::edge::Edge;
use crate::header::Header;
use std::marker::Model;

#[derive(Drop)]
pub struct Laid<'a> {
    file: &'a [u8],
    header: Header,
    ghost heads: { Heads header file.now },
}

impl<'a> Model for Laid<'a> {
    ghost use Rattle.routine.specs.Reader.{LaidBytes};

    ghost Value = { LaidBytes };

    ghost view = { λ r. record { bytes = r.file.now; laid = r.heads.laid } };
}

impl<'a> Laid<'a> {
    pub fn new(file: &'a [u8], header: Header) -> Laid<'a>
        requires { Heads header file.now }
        ensures { result.bytes ≡ file.now }
    {
        Laid { file, header }
    }

    // Its bytes.
    pub fn bytes(&self) -> &[u8]
        ensures { result.now ≡ self.now.bytes }
    {
        self.file
    }

    pub fn header(&self) -> Header
        ensures value { result ≡ header_of self.now.bytes }
        ensures heads { Heads result self.now.bytes }
    {
        self.header
    }

    pub fn arrays(&self) -> usize
        ensures { result ≡ arrays self.now.bytes }
    {
        self.header.arrays
    }

    pub fn vertices(&self) -> usize
        ensures { result ≡ vertices self.now.bytes }
    {
        self.header.vertices
    }

    pub fn edges(&self) -> usize
        ensures { result ≡ edges self.now.bytes }
    {
        self.header.edges
    }

    // The record of array a.
    pub fn array(&self, a: usize) -> ArrayRecord
        requires { a < arrays self.now.bytes }
        ensures { result ≡ array_of self.now.bytes a }
    {
        let at = Header::SIZE + ArrayRecord::SIZE * a;
        ArrayRecord::from_bytes([
            self.file[at],
            self.file[at + 1],
            self.file[at + 2],
            self.file[at + 3],
        ])
    }

    // Where the action byte of array a at vertex v stands.
    pub fn action_at(&self, a: usize, v: usize) -> usize
        requires a_bound { a < arrays self.now.bytes }
        requires v_bound { v < vertices self.now.bytes }
        ensures value { result ≡ action_at self.now.bytes a v }
        ensures upper_bound { result < length self.now.bytes }
    {
        self.header.actions_at() + v * self.header.arrays + a
    }

    // The action byte of array a at vertex v.
    pub fn action_byte(&self, a: usize, v: usize) -> u8
        requires a_bound { a < arrays self.now.bytes }
        requires v_bound { v < vertices self.now.bytes }
        ensures { result ≡ action_byte self.now.bytes a v }
    {
        let at = self.action_at(a, v);
        self.file[at]
    }

    // What vertex v does with array a.
    pub fn action(&self, a: usize, v: usize) -> Action
        requires a_bound { a < arrays self.now.bytes }
        requires v_bound { v < vertices self.now.bytes }
        ensures { result ≡ action self.now.bytes a v }
    {
        Action::from(self.action_byte(a, v))
    }

    // Where edge i stands.
    pub fn edge_at(&self, i: usize) -> usize
        requires { i < edges self.now.bytes }
        ensures value { result ≡ edge_at self.now.bytes i }
        ensures upper_bound { result + 3 < length self.now.bytes }
    {
        self.header.edges_at() + Edge::SIZE * i
    }

    // Edge i.
    pub fn edge(&self, i: usize) -> Edge
        requires { i < edges self.now.bytes }
        ensures { result ≡ edge_of self.now.bytes i }
    {
        let at = self.edge_at(i);
        Edge {
            from: words::at(self.file, at),
            to: words::at(self.file, at + 2),
        }
    }
}

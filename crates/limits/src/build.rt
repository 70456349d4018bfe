// Routine files, made in a buffer of zeros (document 01, "Routine file").
ghost use Rattle.std.specs.Prelude.{◌≤◌, ◌<◌};

// More than the longest routine file, which has 6,194 bytes, and than a path of 4,097 vertices.
pub const SIZE: usize = 8200;

pub type Buffer = [u8; SIZE];

pub fn zeros() -> Buffer {
    [0; SIZE]
}

// A byte; past the end nothing is stored.
pub fn put(file: &mut Buffer, at: usize, byte: u8) {
    if at < SIZE {
        file[at] = byte;
    }
}

// A 16-bit number, low byte first.
fn put_word(file: &mut Buffer, at: usize, n: usize)
    requires { at ≤ 8192 }
{
    put(file, at, (n % 256) as u8);
    put(file, at + 1, (n / 256 % 256) as u8);
}

fn put_edge(file: &mut Buffer, at: usize, from: usize, to: usize)
    requires { at < 8000 }
{
    put_word(file, at, from);
    put_word(file, at + 2, to);
}

// Where the edges stand.
fn edges_offset(arrays: usize, vertices: usize) -> usize
    requires arrays_bound { arrays ≤ 9 }
    requires vertices_bound { vertices ≤ 257 }
    ensures { result < 3000 }
{
    18 + 4 * arrays + vertices * arrays
}

// Mark, edition and table of contents, with the offsets that the counts ask for.
fn put_head(file: &mut Buffer, arrays: usize, vertices: usize, edges: usize)
    requires arrays_bound { arrays ≤ 9 }
    requires vertices_bound { vertices ≤ 257 }
{
    let actions_at = 18 + 4 * arrays;
    let edges_at = edges_offset(arrays, vertices);
    put_all(file, b"HPFR");
    put_word(file, 4, 1);
    put_word(file, 6, 18);
    put_word(file, 8, arrays);
    put_word(file, 10, actions_at);
    put_word(file, 12, vertices);
    put_word(file, 14, edges_at);
    put_word(file, 16, edges);
}

// The bytes of a file from its start.
fn put_all(file: &mut Buffer, bytes: &[u8]) {
    for (i, byte) in bytes.iter().enumerate() {
        put(file, i, *byte);
    }
}

// Routine files in rows of bytes: mark, edition and contents; array; actions; edges.

// P: one local array of 3 versions, 8 vertices, 8 edges.
const P: [u8; 62] = [
    b'H', b'P', b'F', b'R', 1, 0, 18, 0, 1, 0, 22, 0, 8, 0, 30, 0, 8, 0, 0, 3, 0, 0, 0x00, 0x20,
    0x41, 0x10, 0x42, 0x40, 0x10, 0x00, 0, 0, 1, 0, 1, 0, 2, 0, 2, 0, 3, 0, 3, 0, 4, 0, 4, 0, 5, 0,
    5, 0, 6, 0, 6, 0, 2, 0, 6, 0, 7, 0,
];

// U: one local array of 2 versions, 8 vertices in a row.
const U: [u8; 58] = [
    b'H', b'P', b'F', b'R', 1, 0, 18, 0, 1, 0, 22, 0, 8, 0, 30, 0, 7, 0, 0, 2, 0, 0, 0x00, 0x20,
    0x41, 0x20, 0x10, 0x40, 0x10, 0x00, 0, 0, 1, 0, 1, 0, 2, 0, 2, 0, 3, 0, 3, 0, 4, 0, 4, 0, 5, 0,
    5, 0, 6, 0, 6, 0, 7, 0,
];

// T: one local array of 2 versions, 4 vertices, 4 edges.
const T: [u8; 42] = [
    b'H', b'P', b'F', b'R', 1, 0, 18, 0, 1, 0, 22, 0, 4, 0, 26, 0, 4, 0, 0, 2, 0, 0, 0x00, 0x41,
    0x10, 0x00, 0, 0, 1, 0, 0, 0, 2, 0, 1, 0, 2, 0, 2, 0, 3, 0,
];

// T with a define between its read and its exit.
const LONGER_T: [u8; 47] = [
    b'H', b'P', b'F', b'R', 1, 0, 18, 0, 1, 0, 22, 0, 5, 0, 27, 0, 5, 0, 0, 2, 0, 0, 0x00, 0x41,
    0x10, 0x20, 0x00, 0, 0, 1, 0, 0, 0, 2, 0, 1, 0, 2, 0, 2, 0, 3, 0, 3, 0, 4, 0,
];

pub fn put_p(file: &mut Buffer) {
    put_all(file, &P);
}

pub fn put_u(file: &mut Buffer) {
    put_all(file, &U);
}

pub fn put_t(file: &mut Buffer) {
    put_all(file, &T);
}

pub fn put_longer_t(file: &mut Buffer) {
    put_all(file, &LONGER_T);
}

// The same byte `count` times, `step` bytes apart.
fn put_every(file: &mut Buffer, at: usize, step: usize, count: usize, byte: u8)
    requires at_bound { at ≤ 8192 }
    requires step_bound { step ≤ 4 }
    requires count_bound { count ≤ 8192 }
{
    for i in 0..count {
        put(file, at + step * i, byte);
    }
}

// Edges that rise: edge i goes from i / 32 to 33 + i % 32.
fn put_edges(file: &mut Buffer, at: usize, edges: usize)
    requires at_bound { at < 3000 }
    requires edges_bound { edges ≤ 1025 }
{
    for i in 0..edges {
        put_edge(file, at + 4 * i, i / 32, 33 + i % 32);
    }
}

// A routine of local arrays of one version each, whose vertices do nothing; the result is its length. With edges it takes 66 vertices or
// more.
pub fn put_idle(file: &mut Buffer, arrays: usize, vertices: usize, edges: usize) -> usize
    requires arrays_bound { arrays ≤ 9 }
    requires vertices_bound { vertices ≤ 257 }
    requires edges_bound { edges ≤ 1025 }
    ensures { result ≤ 8192 }
{
    let edges_at = edges_offset(arrays, vertices);
    put_head(file, arrays, vertices, edges);
    put_every(file, 19, 4, arrays, 1);
    put_edges(file, edges_at, edges);
    edges_at + 4 * edges
}

// A routine with the longest plan: 8 inout arrays and 256 vertices, each but the entry and the exit with 8 remappings; no edges.
pub fn put_full(file: &mut Buffer) -> usize
    ensures { result ≤ 8192 }
{
    let length = put_idle(file, 8, 256, 0);
    put_every(file, 18, 4, 8, 3);
    put_every(file, 58, 1, 2032, 0x40);
    length
}

// One local array, and 84 calls that pass it with this byte, from vertex 1 on; no edges.
pub fn put_calls(file: &mut Buffer, vertices: usize, byte: u8) -> usize
    requires { vertices ≤ 257 }
    ensures { result ≤ 8192 }
{
    let length = put_idle(file, 1, vertices, 0);
    put_every(file, 23, 1, 84, byte);
    length
}

// A path's vertex.
pub fn put_vertex(path: &mut Buffer, index: usize, vertex: usize)
    requires { index ≤ 4096 }
{
    put_word(path, 2 * index, vertex);
}

// A path through P, round its loop as often as the vertices need: 0 1, then 2 3 4 5 6 again and again.
pub fn put_loop(path: &mut Buffer, vertices: usize)
    requires { vertices ≤ 4097 }
{
    put_vertex(path, 1, 1);
    for i in 2..vertices {
        put_vertex(path, i, 2 + (i - 2) % 5);
    }
}

// A path of rising vertices.
pub fn put_rising(path: &mut Buffer, vertices: usize)
    requires { vertices ≤ 4097 }
{
    for i in 0..vertices {
        put_vertex(path, i, i);
    }
}

// The runner's answers (document 01, "Who can cause a refusal", cases 2, 6 and 9; document 02, requests 3 and 8): for a run 0, the report's length and 0; for a refused path or
// buffer the number and the two places.
ghost use Rattle.std.specs.Prelude.{◌≤◌};

use crate::build::Buffer;
use crate::{build, print};
use std::io;

// Enough for each report here.
const ROOM: usize = 17000;

fn buffer() -> [u8; ROOM] {
    [0; ROOM]
}

fn write_answer(rt: &HostRuntime, file: &[u8], path: &[u8], out: &mut [u8]) -> io::Result<()> {
    print::outcome(rt, run::run(file, path, out))
}

// The answer for the first bytes of a routine and of a path, with a buffer of `room` bytes.
fn case(
    rt: &HostRuntime,
    name: &[u8],
    file: Buffer,
    length: usize,
    path: Buffer,
    bytes: usize,
    room: usize,
) -> io::Result<()>
    requires length_len_bound { length ≤ 8200 }
    requires bytes_bound { bytes ≤ 8200 }
    requires room_bound { room ≤ 17000 }
{
    let mut out = buffer();
    print::name(rt, name)?;
    write_answer(rt, &file[..length], &path[..bytes], &mut out[..room])
}

// Routine P on the first bytes of this path.
fn p_on(rt: &HostRuntime, name: &[u8], path: Buffer, bytes: usize, room: usize) -> io::Result<()>
    requires bytes_bound { bytes ≤ 8200 }
    requires room_bound { room ≤ 17000 }
{
    let mut file = build::zeros();
    build::put_p(&mut file);
    case(rt, name, file, 62, path, bytes, room)
}

// Routine P, round its loop.
fn p_round(
    rt: &HostRuntime,
    name: &[u8],
    vertices: usize,
    bytes: usize,
    room: usize,
) -> io::Result<()>
    requires vertices_bound { vertices ≤ 4097 }
    requires bytes_bound { bytes ≤ 8200 }
    requires room_bound { room ≤ 17000 }
{
    let mut path = build::zeros();
    build::put_loop(&mut path, vertices);
    p_on(rt, name, path, bytes, room)
}

// Routine P on two vertices.
fn p_on_two(
    rt: &HostRuntime,
    name: &[u8],
    first: usize,
    second: usize,
    room: usize,
) -> io::Result<()>
    requires { room ≤ 17000 }
{
    let mut path = build::zeros();
    build::put_vertex(&mut path, 0, first);
    build::put_vertex(&mut path, 1, second);
    p_on(rt, name, path, 4, room)
}

// Routine P with a call at vertex 1 that passes the array in version 0 as in, on rising vertices: the call is 1, 2 and 3.
fn call_on(rt: &HostRuntime, name: &[u8], vertices: usize, room: usize) -> io::Result<()>
    requires vertices_bound { vertices ≤ 4097 }
    requires room_bound { room ≤ 17000 }
{
    let mut file = build::zeros();
    let mut path = build::zeros();
    build::put_p(&mut file);
    build::put(&mut file, 23, 0x60);
    build::put_rising(&mut path, vertices);
    case(rt, name, file, 62, path, 2 * vertices, room)
}

// Routine T, which is refused, on an empty path.
fn t_on_nothing(rt: &HostRuntime, name: &[u8]) -> io::Result<()> {
    let mut file = build::zeros();
    build::put_t(&mut file);
    case(rt, name, file, 42, build::zeros(), 0, 0)
}

// After the answer, a stamp that the report holds.
fn write_stamp(
    rt: &HostRuntime,
    file: &[u8],
    path: &[u8],
    out: &mut [u8],
    at: usize,
) -> io::Result<()>
    requires { at ≤ 17000 }
{
    write_answer(rt, file, path, out)?;
    print::name(rt, b"u_last_read")?;
    print::number(rt, u64::from(listing::word(out, at)))
}

// Routine U on this path: the answer, and the stamp that the last read saw.
fn u_on(rt: &HostRuntime, file: Buffer, path: Buffer) -> io::Result<()> {
    let mut out = buffer();
    print::name(rt, b"u")?;
    write_stamp(rt, &file[..58], &path[..14], &mut out[..62], 44)
}

fn u(rt: &HostRuntime) -> io::Result<()> {
    let mut file = build::zeros();
    let mut path = build::zeros();
    build::put_u(&mut file);
    build::put_rising(&mut path, 7);
    u_on(rt, file, path)
}

// 30: the place is the number of vertices.
fn lengths(rt: &HostRuntime) -> io::Result<()> {
    p_round(rt, b"path_of_1", 1, 2, ROOM)?;
    p_round(rt, b"path_of_4096", 4096, 8192, ROOM)?;
    p_round(rt, b"path_of_4097", 4097, 8194, ROOM)
}

// An odd last byte is ignored; 30 comes before 31, and after 21.
fn odd_lengths(rt: &HostRuntime) -> io::Result<()> {
    p_round(rt, b"path_odd_last_byte", 9, 19, ROOM)?;
    p_round(rt, b"path_of_one_byte", 1, 1, ROOM)?;
    p_round(rt, b"path_empty", 1, 0, ROOM)?;
    t_on_nothing(rt, b"21_before_30")
}

// 31, and 32 at the vertex arrived at.
fn steps(rt: &HostRuntime) -> io::Result<()> {
    p_on_two(rt, b"path_0_2", 0, 2, ROOM)?;
    p_on_two(rt, b"path_1_2", 1, 2, ROOM)?;
    p_on_two(rt, b"path_0_8", 0, 8, ROOM)
}

// 31 before 32, and 32 before 2.
fn steps_in_order(rt: &HostRuntime) -> io::Result<()> {
    p_on_two(rt, b"31_before_32", 8, 8, ROOM)?;
    p_on_two(rt, b"path_256_0", 256, 0, ROOM)?;
    p_on_two(rt, b"32_before_2", 0, 2, 0)
}

// Paths that end inside a call and behind it; beyond the exit, which is 9 then, there is no edge.
fn calls(rt: &HostRuntime) -> io::Result<()> {
    call_on(rt, b"path_ends_in_call", 2, ROOM)?;
    call_on(rt, b"path_ends_at_reference_of_call", 3, ROOM)?;
    call_on(rt, b"path_past_call", 10, ROOM)?;
    call_on(rt, b"path_past_exit", 11, ROOM)
}

// 2: the buffer.
fn buffers(rt: &HostRuntime) -> io::Result<()> {
    p_round(rt, b"report_fits", 9, 18, 64)?;
    p_round(rt, b"report_a_byte_short", 9, 18, 63)?;
    p_round(rt, b"report_no_buffer", 9, 18, 0)
}

pub fn all(rt: &HostRuntime) -> io::Result<()> {
    lengths(rt)?;
    odd_lengths(rt)?;
    steps(rt)?;
    steps_in_order(rt)?;
    calls(rt)?;
    buffers(rt)?;
    u(rt)
}

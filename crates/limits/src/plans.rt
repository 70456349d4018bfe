// The planner's answers (document 01, "Plan and report", "Who can cause a refusal", cases 7 and 8; document 02, request 3): for a plan 0, its
// length and 0; for a refused routine or buffer the number and the two places.
ghost use Rattle.std.specs.Prelude.{◌≤◌};

use crate::build::Buffer;
use crate::{build, print};
use std::io;

// The length of the longest plan.
const ROOM: usize = 25608;

fn buffer() -> [u8; ROOM] {
    [0; ROOM]
}

fn write_answer(rt: &HostRuntime, file: &[u8], out: &mut [u8]) -> io::Result<()> {
    print::outcome(rt, plan::plan(file, out))
}

// The answer for the first `length` bytes, with a buffer of `room` bytes.
fn case(rt: &HostRuntime, name: &[u8], file: Buffer, length: usize, room: usize) -> io::Result<()>
    requires length_len_bound { length ≤ 8192 }
    requires room_bound { room ≤ 25608 }
{
    let mut out = buffer();
    print::name(rt, name)?;
    write_answer(rt, &file[..length], &mut out[..room])
}

fn p_into(rt: &HostRuntime, name: &[u8], room: usize) -> io::Result<()>
    requires { room ≤ 25608 }
{
    let mut file = build::zeros();
    build::put_p(&mut file);
    case(rt, name, file, 62, room)
}

// Routine P with an array of this kind, and this action at vertex 1.
fn p_with(rt: &HostRuntime, name: &[u8], kind: u8, action: u8) -> io::Result<()> {
    let mut file = build::zeros();
    build::put_p(&mut file);
    build::put(&mut file, 18, kind);
    build::put(&mut file, 23, action);
    case(rt, name, file, 62, ROOM)
}

// Routine T with this action at vertex 2.
fn t_with(rt: &HostRuntime, name: &[u8], action: u8, room: usize) -> io::Result<()>
    requires { room ≤ 25608 }
{
    let mut file = build::zeros();
    build::put_t(&mut file);
    build::put(&mut file, 24, action);
    case(rt, name, file, 42, room)
}

// The longer routine T with an array of this kind.
fn longer_t(rt: &HostRuntime, name: &[u8], kind: u8) -> io::Result<()> {
    let mut file = build::zeros();
    build::put_longer_t(&mut file);
    build::put(&mut file, 18, kind);
    case(rt, name, file, 47, ROOM)
}

// Two arrays, the second in, and three vertices without edges; the middle one has this action for the second array.
fn unreached(rt: &HostRuntime, name: &[u8], action: u8) -> io::Result<()> {
    let mut file = build::zeros();
    let length = build::put_idle(&mut file, 2, 3, 0);
    build::put(&mut file, 22, 1);
    build::put(&mut file, 29, action);
    case(rt, name, file, length, ROOM)
}

// So many vertices, 84 of them calls, of an array of this kind with this byte.
fn calls(rt: &HostRuntime, name: &[u8], vertices: usize, kind: u8, byte: u8) -> io::Result<()>
    requires { vertices ≤ 257 }
{
    let mut file = build::zeros();
    let length = build::put_calls(&mut file, vertices, byte);
    build::put(&mut file, 18, kind);
    case(rt, name, file, length, ROOM)
}

fn full(rt: &HostRuntime, name: &[u8]) -> io::Result<()> {
    let mut file = build::zeros();
    let length = build::put_full(&mut file);
    case(rt, name, file, length, ROOM)
}

// 0, and 1: the buffer.
fn buffers(rt: &HostRuntime) -> io::Result<()> {
    p_into(rt, b"plan_fits", 88)?;
    p_into(rt, b"plan_a_byte_short", 87)?;
    p_into(rt, b"plan_no_buffer", 0)?;
    full(rt, b"plan_longest")
}

// 20: on every vertex, and before 21.
fn written_in_arguments(rt: &HostRuntime) -> io::Result<()> {
    p_with(rt, b"in_defined", 1, 0x20)?;
    p_with(rt, b"in_modified", 1, 0x30)?;
    p_with(rt, b"in_killed", 1, 0x80)?;
    p_with(rt, b"in_read", 1, 0x10)?;
    p_with(rt, b"out_defined", 2, 0x20)?;
    unreached(rt, b"in_defined_unreached", 0x20)?;
    longer_t(rt, b"20_before_21", 1)
}

// 20 of calls: an in argument may be passed as in alone.
fn passed_in_arguments(rt: &HostRuntime) -> io::Result<()> {
    p_with(rt, b"in_passed_in", 1, 0x60)?;
    p_with(rt, b"in_passed_out", 1, 0xa0)?;
    p_with(rt, b"in_passed_inout", 1, 0xc0)?;
    unreached(rt, b"in_passed_out_unreached", 0xa0)
}

// 22: the vertices after expansion, before 20.
fn expanded_vertices(rt: &HostRuntime) -> io::Result<()> {
    calls(rt, b"calls_to_256_vertices", 88, 0, 0x60)?;
    calls(rt, b"calls_to_257_vertices", 89, 0, 0x60)?;
    calls(rt, b"calls_to_424_vertices", 256, 0, 0x60)?;
    calls(rt, b"22_before_20", 89, 1, 0xa0)
}

// 21: before 1.
fn ambiguous_references(rt: &HostRuntime) -> io::Result<()> {
    t_with(rt, b"t", 0x10, ROOM)?;
    t_with(rt, b"t_with_nothing", 0x00, ROOM)?;
    t_with(rt, b"t_with_call", 0x61, ROOM)?;
    t_with(rt, b"21_before_1", 0x10, 0)?;
    longer_t(rt, b"first_ambiguous_vertex", 0)
}

pub fn all(rt: &HostRuntime) -> io::Result<()> {
    buffers(rt)?;
    expanded_vertices(rt)?;
    written_in_arguments(rt)?;
    passed_in_arguments(rt)?;
    ambiguous_references(rt)
}

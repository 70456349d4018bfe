// The reader's answers (document 01, "Routine file", "Who can cause a refusal", case 9): for an accepted file 0 and the counts of arrays,
// vertices and edges; for a refused one the number and the two places.
ghost use Rattle.std.specs.Prelude.{◌≤◌};

use crate::build::Buffer;
use crate::{build, print};
use routine::reader;
use std::io;

fn write_answer(rt: &HostRuntime, file: &[u8]) -> io::Result<()> {
    match reader::read(file) {
        Ok(h) => print::counts(rt, h),
        Err(r) => print::outcome(rt, Err(r)),
    }
}

// The answer for the first `length` bytes.
fn case(rt: &HostRuntime, name: &[u8], file: Buffer, length: usize) -> io::Result<()>
    requires { length ≤ 8192 }
{
    print::name(rt, name)?;
    write_answer(rt, &file[..length])
}

// The first `length` bytes of routine P, and zeros past its 62.
fn p_of_length(rt: &HostRuntime, name: &[u8], length: usize) -> io::Result<()>
    requires { length ≤ 8192 }
{
    let mut file = build::zeros();
    build::put_p(&mut file);
    case(rt, name, file, length)
}

// Routine P with another byte.
fn p_with(rt: &HostRuntime, name: &[u8], at: usize, byte: u8) -> io::Result<()> {
    let mut file = build::zeros();
    build::put_p(&mut file);
    build::put(&mut file, at, byte);
    case(rt, name, file, 62)
}

// Routine P with two other bytes.
fn p_with_two(
    rt: &HostRuntime,
    name: &[u8],
    at: usize,
    byte: u8,
    at2: usize,
    byte2: u8,
) -> io::Result<()> {
    let mut file = build::zeros();
    build::put_p(&mut file);
    build::put(&mut file, at, byte);
    build::put(&mut file, at2, byte2);
    case(rt, name, file, 62)
}

// A routine whose vertices do nothing.
fn idle(
    rt: &HostRuntime,
    name: &[u8],
    arrays: usize,
    vertices: usize,
    edges: usize,
) -> io::Result<()>
    requires arrays_bound { arrays ≤ 9 }
    requires vertices_bound { vertices ≤ 257 }
    requires edges_bound { edges ≤ 1025 }
{
    let mut file = build::zeros();
    let length = build::put_idle(&mut file, arrays, vertices, edges);
    case(rt, name, file, length)
}

// Two arrays of one version and three vertices, with these actions at bytes 28 and 29, the middle row, and at 30, in the exit's.
fn middle_row(rt: &HostRuntime, name: &[u8], first: u8, second: u8, exit: u8) -> io::Result<()> {
    let mut file = build::zeros();
    let length = build::put_idle(&mut file, 2, 3, 0);
    build::put(&mut file, 28, first);
    build::put(&mut file, 29, second);
    build::put(&mut file, 30, exit);
    case(rt, name, file, length)
}

fn accepted(rt: &HostRuntime) -> io::Result<()> {
    p_of_length(rt, b"p", 62)?;
    idle(rt, b"largest", 8, 256, 1024)
}

// 10: under 18 bytes, wrong mark.
fn marks(rt: &HostRuntime) -> io::Result<()> {
    p_of_length(rt, b"empty", 0)?;
    p_of_length(rt, b"under_18_bytes", 17)?;
    p_with(rt, b"mark_first_byte", 0, b'h')?;
    p_with(rt, b"mark_last_byte", 3, b'P')
}

// 11.
fn editions(rt: &HostRuntime) -> io::Result<()> {
    p_with(rt, b"edition_2", 4, 2)?;
    p_with(rt, b"edition_257", 5, 1)
}

// 12: arrays, vertices, edges.
fn array_counts(rt: &HostRuntime) -> io::Result<()> {
    p_with(rt, b"arrays_0", 8, 0)?;
    idle(rt, b"arrays_8", 8, 2, 0)?;
    idle(rt, b"arrays_9", 9, 2, 0)
}

fn vertex_counts(rt: &HostRuntime) -> io::Result<()> {
    p_with(rt, b"vertices_1", 12, 1)?;
    idle(rt, b"vertices_2", 1, 2, 0)?;
    idle(rt, b"vertices_256", 1, 256, 0)?;
    idle(rt, b"vertices_257", 1, 257, 0)
}

fn edge_counts(rt: &HostRuntime) -> io::Result<()> {
    idle(rt, b"edges_1024", 1, 66, 1024)?;
    idle(rt, b"edges_1025", 1, 66, 1025)
}

// 13: offsets; a wrong count comes first.
fn offsets(rt: &HostRuntime) -> io::Result<()> {
    p_with(rt, b"arrays_offset", 6, 19)?;
    p_with(rt, b"vertices_offset", 10, 23)?;
    p_with(rt, b"edges_offset", 14, 29)
}

fn file_lengths(rt: &HostRuntime) -> io::Result<()> {
    p_of_length(rt, b"a_byte_short", 61)?;
    p_of_length(rt, b"a_byte_long", 63)?;
    p_with_two(rt, b"count_before_offset", 6, 19, 17, 5)
}

// 14: kind, versions, initial version, zero; the lowest byte comes first.
fn kinds(rt: &HostRuntime) -> io::Result<()> {
    p_with(rt, b"kind_3", 18, 3)?;
    p_with(rt, b"kind_4", 18, 4)
}

fn versions(rt: &HostRuntime) -> io::Result<()> {
    p_with(rt, b"versions_0", 19, 0)?;
    p_with(rt, b"versions_32", 19, 32)?;
    p_with(rt, b"versions_33", 19, 33)
}

fn initial_versions(rt: &HostRuntime) -> io::Result<()> {
    p_with(rt, b"initial_2_of_3", 20, 2)?;
    p_with(rt, b"initial_3_of_3", 20, 3)?;
    p_with(rt, b"fourth_byte_1", 21, 1)?;
    p_with_two(rt, b"lowest_byte_first", 21, 1, 18, 4)
}

// 15, 17: a byte by itself; both before 16.
fn action_bytes(rt: &HostRuntime) -> io::Result<()> {
    p_with(rt, b"action_11", 25, 0x11)?;
    p_with(rt, b"remap_2_of_3", 24, 0x42)?;
    p_with(rt, b"remap_3_of_3", 24, 0x43)?;
    p_with(rt, b"remap_16_of_3", 23, 0x50)?;
    p_with(rt, b"remap_31_of_3", 25, 0x5f)?;
    p_with_two(rt, b"remap_31_of_32", 19, 32, 24, 0x5f)?;
    p_with_two(rt, b"17_before_16", 24, 0x43, 58, 7)
}

// 15: bytes beside those of calls and of a kill (document 02, requests 3 and 6).
fn bytes_beside_calls(rt: &HostRuntime) -> io::Result<()> {
    p_with(rt, b"action_81", 25, 0x81)?;
    p_with(rt, b"action_9f", 25, 0x9f)?;
    p_with(rt, b"action_e0", 25, 0xe0)
}

// 18, 19: a kill is a reference.
fn kills(rt: &HostRuntime) -> io::Result<()> {
    p_with(rt, b"kill", 25, 0x80)?;
    p_with(rt, b"entry_row_kill", 22, 0x80)?;
    middle_row(rt, b"kill_after_modify", 0x30, 0x80, 0)?;
    middle_row(rt, b"kill_after_remap", 0x40, 0x80, 0)?;
    middle_row(rt, b"call_after_kill", 0x80, 0x60, 0)
}

// 17, 18: a call by itself.
fn calls(rt: &HostRuntime) -> io::Result<()> {
    p_with(rt, b"call_in_2_of_3", 25, 0x62)?;
    p_with(rt, b"call_in_3_of_3", 25, 0x63)?;
    p_with(rt, b"call_out_3_of_3", 25, 0xa3)?;
    p_with(rt, b"call_inout_31_of_3", 25, 0xdf)?;
    p_with(rt, b"entry_row_call", 22, 0x60)?;
    p_with(rt, b"exit_row_call", 29, 0xc0)?;
    p_with(rt, b"entry_row_call_3_of_3", 22, 0xa3)
}

// 18: the rows of entry and exit; there too 15 and 17 are lower numbers.
fn end_rows(rt: &HostRuntime) -> io::Result<()> {
    p_with(rt, b"entry_row", 22, 0x10)?;
    p_with(rt, b"exit_row", 29, 0x40)?;
    p_with(rt, b"entry_row_unknown", 22, 0x11)?;
    p_with(rt, b"entry_row_remap_3_of_3", 22, 0x43)
}

// 19: a row of both sorts; a lower number in the same byte comes first, one in a later byte does not.
fn mixed_rows(rt: &HostRuntime) -> io::Result<()> {
    middle_row(rt, b"row_of_references", 0x10, 0x30, 0)?;
    middle_row(rt, b"row_of_remappings", 0x40, 0x40, 0)?;
    middle_row(rt, b"remap_after_read", 0x10, 0x40, 0)?;
    middle_row(rt, b"define_after_remap", 0x40, 0x20, 0)?;
    middle_row(rt, b"remap_1_of_1_after_read", 0x10, 0x41, 0)?;
    middle_row(rt, b"19_before_a_later_15", 0x10, 0x40, 0x11)
}

// 19: a call row holds calls and 00 only.
fn call_rows(rt: &HostRuntime) -> io::Result<()> {
    middle_row(rt, b"row_of_calls", 0x60, 0xc0, 0)?;
    middle_row(rt, b"call_after_nothing", 0, 0xa0, 0)?;
    middle_row(rt, b"call_after_read", 0x10, 0x60, 0)?;
    middle_row(rt, b"read_after_call", 0x60, 0x10, 0)?;
    middle_row(rt, b"call_after_remap", 0x40, 0xa0, 0)?;
    middle_row(rt, b"remap_after_call", 0xa0, 0x40, 0)?;
    middle_row(rt, b"call_1_of_1_after_read", 0x10, 0xc1, 0)
}

// 16: ends, then order.
fn edge_ends(rt: &HostRuntime) -> io::Result<()> {
    p_with(rt, b"edge_from_8_of_8", 30, 8)?;
    p_with(rt, b"edge_to_8_of_8", 60, 8)?;
    p_with(rt, b"edge_into_entry", 56, 0)?;
    p_with(rt, b"edge_out_of_exit", 58, 7)
}

fn edge_order(rt: &HostRuntime) -> io::Result<()> {
    p_with(rt, b"edge_to_itself", 36, 1)?;
    p_with_two(rt, b"edge_falls", 38, 1, 40, 1)?;
    p_with_two(rt, b"edge_twice", 34, 0, 36, 1)
}

pub fn all(rt: &HostRuntime) -> io::Result<()> {
    accepted(rt)?;
    marks(rt)?;
    editions(rt)?;
    array_counts(rt)?;
    vertex_counts(rt)?;
    edge_counts(rt)?;
    offsets(rt)?;
    file_lengths(rt)?;
    kinds(rt)?;
    versions(rt)?;
    initial_versions(rt)?;
    action_bytes(rt)?;
    bytes_beside_calls(rt)?;
    kills(rt)?;
    calls(rt)?;
    end_rows(rt)?;
    mixed_rows(rt)?;
    call_rows(rt)?;
    edge_ends(rt)?;
    edge_order(rt)
}

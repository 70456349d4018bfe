// Lines on standard output: a case's name and numbers.
ghost use Rattle.std.specs.Prelude.{◌≤◌, length};

use refusal::Refusal;
use routine::header::Header;
use std::io;
use text::Column;

// The start of a case's line.
pub fn name(rt: &HostRuntime, name: &[u8]) -> io::Result<()> {
    rt.write_all(name)?;
    rt.write_all(b" ")
}

// The number and places of a call's answer.
pub fn outcome(rt: &HostRuntime, reply: Result<usize, Refusal>) -> io::Result<()> {
    let mut line = [0u8; listing::ROOM];
    let n = listing::outcome(&mut line, reply);
    rt.write_all(&line[..n])
}

fn numbers(rt: &HostRuntime, columns: &[Column]) -> io::Result<()>
    requires { length columns.now ≤ 4 }
{
    let mut line = [0u8; listing::ROOM];
    let n = text::line(&mut line, columns);
    rt.write_all(&line[..n])
}

// 0 and the counts of arrays, vertices and edges.
pub fn counts(rt: &HostRuntime, h: Header) -> io::Result<()> {
    let columns = [
        Column::Number(0),
        Column::Number(h.arrays as u64),
        Column::Number(h.vertices as u64),
        Column::Number(h.edges as u64),
    ];
    numbers(rt, &columns)
}

// One number.
pub fn number(rt: &HostRuntime, n: u64) -> io::Result<()> {
    numbers(rt, &[Column::Number(n)])
}

// The run program (document 01, "Routine P and others"): reads the files `routine` and `path` and prints the report of the run, or the
// refusal; a path beyond 512 vertices prints `long` and no more. A refusal, `long`, a file that cannot be opened or read and a write that fails
// have a line on standard error too; nothing is printed after a write that failed.
#![tactic(auto)]

ghost use Rattle.std.specs.Prelude.{OnOk, ◌*◌, ◌≤◌};
ghost use Rattle.io.specs.Counts.{IsPrefixLen};
ghost use Rattle.listing.specs.Lines.{entry_lines, record_lines, count_lines, report_lines};
ghost use Rattle.std.specs.Io.KnownBytes.{Appends};

use run::edges;
use std::fs::File;
use std::io::{self, Write};

// More than the longest routine file, which has 6,194 bytes: a byte too many is seen, and no later one matters.
const ROUTINE: usize = 6195;

// 513 vertices: as many are too long.
const PATH: usize = 1026;

// The longest report of 512 vertices: 8 arrays, 8 references at each vertex but the entry, and 1,192 edges.
const REPORT: usize = 43328;

// The number of bytes read; a file that cannot be opened counts as empty. If it cannot be opened, `unopened` goes to standard error; if a read
// fails, `unread`.
fn read_file(rt: &HostRuntime, name: &str, buf: &mut [u8], unopened: &[u8], unread: &[u8]) -> usize
    ensures { IsPrefixLen result buf.new }
{
    match File::open(rt, name) {
        Ok(mut file) => streams::read_all(&mut file, buf, &mut rt.stderr(), unread),
        Err(_) => {
            let _ = rt.stderr().write_all(unopened);
            0
        }
    }
}

// The entries of the arrays, a line for each.
fn print_entries<W: Write>(out: &mut W, report: &[u8], arrays: u16) -> io::Result<()>
    ensures { OnOk result (Appends (W.contents out.old) (W.contents out.new) (entry_lines report.now arrays)) }
{
    let mut line = [0u8; listing::ROOM];
    for array in 0..arrays {
        let n = listing::entry(&mut line, report, 8 * usize::from(array));
        out.write_all(&line[..n])?;
    }
    Ok(())
}

// The records from `from` on, up to where the counts start.
fn print_records<W: Write>(out: &mut W, report: &[u8], from: usize, end: usize) -> io::Result<()>
    requires { end ≤ 1000000 }
    ensures { OnOk result (Appends (W.contents out.old) (W.contents out.new) (record_lines report.now from end)) }
{
    let mut line = [0u8; listing::ROOM];
    for at in (from..end).step_by(10) {
        let n = listing::record(&mut line, report, at);
        out.write_all(&line[..n])?;
    }
    Ok(())
}

// The counts from `from` on, up to the report's end.
fn print_counts<W: Write>(out: &mut W, report: &[u8], from: usize, end: usize) -> io::Result<()>
    requires { end ≤ 1000000 }
    ensures { OnOk result (Appends (W.contents out.old) (W.contents out.new) (count_lines report.now from end)) }
{
    let mut line = [0u8; listing::ROOM];
    for at in (from..end).step_by(2) {
        let n = listing::count(&mut line, report, at);
        out.write_all(&line[..n])?;
    }
    Ok(())
}

// The report, whose first `length` bytes were written, of a routine of so many arrays and edges.
fn print_report<W: Write>(
    out: &mut W,
    report: &[u8],
    arrays: u16,
    edges: usize,
    length: usize,
) -> io::Result<()>
    ensures { length ≤ 43328
        → 2 * edges ≤ length
        → OnOk result (Appends (W.contents out.old) (W.contents out.new) (report_lines report.now arrays edges length)) }
{
    print_entries(out, report, arrays)?;
    // No report is longer than its buffer, or shorter than its counts; the loops' numbers ask for bounds.
    if length > REPORT || edges > length / 2 {
        return Ok(());
    }
    let counts = length - 2 * edges;
    print_records(out, report, 8 * usize::from(arrays), counts)?;
    print_counts(out, report, counts, length)
}

fn print_run(rt: &HostRuntime, file: &[u8], path: &[u8], report: &mut [u8]) -> io::Result<()> {
    match run::run(file, path, report) {
        Ok(length) => print_report(
            &mut io::writer(rt),
            report,
            listing::word(file, 8),
            edges::of(file),
            length,
        ),
        Err(refusal) => streams::print_refusal(
            &mut rt.stdout(),
            &mut rt.stderr(),
            b"runner: refused ",
            refusal,
        ),
    }
}

fn print_long(rt: &HostRuntime) -> io::Result<()> {
    let _ = rt.stderr().write_all(b"runner: path too long\n");
    rt.write_all(b"long\n")
}

fn run_files(
    rt: &HostRuntime,
    file: &mut [u8],
    path: &mut [u8],
    report: &mut [u8],
) -> io::Result<()> {
    let n = read_file(
        rt,
        "path",
        path,
        b"runner: cannot open path\n",
        b"runner: cannot read path\n",
    );
    if n >= PATH {
        return print_long(rt);
    }
    let k = read_file(
        rt,
        "routine",
        file,
        b"runner: cannot open routine\n",
        b"runner: cannot read routine\n",
    );
    print_run(rt, &file[..k], &path[..n], report)
}

fn main(rt: HostRuntime) {
    let mut file = [0u8; ROUTINE];
    let mut path = [0u8; PATH];
    let mut report = [0u8; REPORT];
    if run_files(&rt, &mut file, &mut path, &mut report).is_err() {
        let _ = rt
            .stderr()
            .write_all(b"runner: cannot write standard output\n");
    }
}

// The planner program (document 01, "Routine P and others"): reads a routine from standard input and prints the labels of its plan, or the
// refusal. A refusal, a read that fails and a write that fails have a line on standard error too; nothing is printed after a write that failed.
#![tactic(auto)]

ghost use Rattle.std.specs.Prelude.{OnOk, ◌≤◌};
ghost use Rattle.listing.specs.Lines.{vertex_lines, label_lines, plan_lines};
ghost use Rattle.std.specs.Io.KnownBytes.{Appends};

use std::io::{self, Write};

// More than the longest routine file, which has 6,194 bytes: a byte too many is seen, and no later one matters.
const FILE: usize = 6195;

// The longest plan: 256 vertices of 8 labels.
const PLAN: usize = 25608;

// The labels of a vertex, `count` of them from `at` on.
fn print_vertex<W: Write>(
    out: &mut W,
    plan: &[u8],
    vertex: u16,
    at: usize,
    count: u16,
) -> io::Result<()>
    requires { at ≤ 1100000 }
    ensures { OnOk result (Appends (W.contents out.old) (W.contents out.new) (vertex_lines plan.now vertex at count)) }
{
    let mut line = [0u8; listing::ROOM];
    for label in 0..count {
        let label_at = at + 12 * usize::from(label);
        let n = listing::label(&mut line, plan, u64::from(vertex), label_at);
        out.write_all(&line[..n])?;
    }
    Ok(())
}

// The labels of the plan, by vertex, then array; they stand after the table of contents.
fn print_labels<W: Write>(out: &mut W, plan: &[u8]) -> io::Result<()>
    ensures { OnOk result (Appends (W.contents out.old) (W.contents out.new) (label_lines plan.now)) }
{
    let vertices = listing::word(plan, 4);
    let labels_at = 8 + 4 * usize::from(vertices);
    for vertex in 0..vertices {
        let entry = 8 + 4 * usize::from(vertex);
        let first = usize::from(listing::word(plan, entry));
        let count = listing::word(plan, entry + 2);
        print_vertex(out, plan, vertex, labels_at + 12 * first, count)?;
    }
    Ok(())
}

fn print_listing<W: Write>(out: &mut W, plan: &[u8]) -> io::Result<()>
    ensures { OnOk result (Appends (W.contents out.old) (W.contents out.new) (plan_lines plan.now)) }
{
    out.write_all(b"vertex array use leave reach keep\n")?;
    print_labels(out, plan)
}

fn print_plan(rt: &HostRuntime, file: &[u8], out: &mut [u8]) -> io::Result<()> {
    match plan::plan(file, out) {
        Ok(_) => print_listing(&mut io::writer(rt), out),
        Err(refusal) => streams::print_refusal(
            &mut rt.stdout(),
            &mut rt.stderr(),
            b"planner: refused ",
            refusal,
        ),
    }
}

fn plan_input(rt: &HostRuntime, file: &mut [u8], out: &mut [u8]) -> io::Result<()> {
    let n = streams::read_all(
        &mut rt.stdin(),
        file,
        &mut rt.stderr(),
        b"planner: cannot read standard input\n",
    );
    print_plan(rt, &file[..n], out)
}

fn main(rt: HostRuntime) {
    let mut file = [0u8; FILE];
    let mut out = [0u8; PLAN];
    if plan_input(&rt, &mut file, &mut out).is_err() {
        let _ = rt
            .stderr()
            .write_all(b"planner: cannot write standard output\n");
    }
}

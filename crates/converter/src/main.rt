// The converter program: reads a directive file from standard input and writes the routine file that it becomes, or prints the refusal. A
// refusal, a read that fails and a write that fails have a line on standard error too.
#![tactic(auto)]

use std::io;

// More than the longest directive file, which has 9,334 bytes: a byte too many is seen, and no later one matters.
const FILE: usize = 9335;

// The longest routine file.
const ROUTINE: usize = 6194;

fn convert_file(rt: &HostRuntime, file: &[u8], out: &mut [u8]) -> io::Result<()> {
    match convert::convert(file, out) {
        Ok(n) => rt.write_all(&out[..n]),
        Err(refusal) => streams::print_refusal(
            &mut rt.stdout(),
            &mut rt.stderr(),
            b"converter: refused ",
            refusal,
        ),
    }
}

fn convert_input(rt: &HostRuntime, file: &mut [u8], out: &mut [u8]) -> io::Result<()> {
    let n = streams::read_all(
        &mut rt.stdin(),
        file,
        &mut rt.stderr(),
        b"converter: cannot read standard input\n",
    );
    convert_file(rt, &file[..n], out)
}

fn main(rt: HostRuntime) {
    let mut file = [0u8; FILE];
    let mut out = [0u8; ROUTINE];
    if convert_input(&rt, &mut file, &mut out).is_err() {
        let _ = rt
            .stderr()
            .write_all(b"converter: cannot write standard output\n");
    }
}

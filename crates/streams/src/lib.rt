// What the programs share of reading and writing: an input read to its end, and a refusal's line for standard error.
#![tactic(auto)]

ghost use Rattle.std.specs.Prelude.{OnOk, ◌≡◌, ◌++◌, ◌≤◌, length, take};
ghost use Rattle.io.specs.Counts.{IsPrefixLen};
ghost use Rattle.listing.specs.Lines.{outcome_line};
ghost use Rattle.std.specs.Io.KnownBytes.{Appends, Consumes};
ghost use Rattle.words.specs.Tables.{wrote};

use refusal::Refusal;
use std::io::{self, Read, Write};

// Room for the start of a line, and for any line of `listing` after it.
pub const ROOM: usize = 32 + listing::ROOM;

// One read into `buf`, and how many bytes came. If it fails, `failed` goes to `errors`.
fn read_once<R: Read, E: Write>(
    from: &mut R,
    buf: &mut [u8],
    errors: &mut E,
    failed: &[u8],
) -> usize
    ensures prefix_len { IsPrefixLen result buf.new }
    ensures taken { Consumes (R.remaining from.old) (R.remaining from.new) (take result buf.new) }
{
    match from.read(buf) {
        Ok(n) => n,
        Err(_) => {
            let _ = errors.write_all(failed);
            0
        }
    }
}

// Reads until `buf` is full, the input ends or a read fails, and answers how many bytes came. A read that fails has `failed` on `errors`:
// the end of the input has none.
pub fn read_all<R: Read, E: Write>(
    from: &mut R,
    buf: &mut [u8],
    errors: &mut E,
    failed: &[u8],
) -> usize
    ensures prefix_len { IsPrefixLen result buf.new }
    ensures taken { Consumes (R.remaining from.old) (R.remaining from.new) (take result buf.new) }
{
    let mut done = 0;
    // each read says how far it came, so that no range counts them
    while done < buf.len() {
        let more = read_once(from, &mut buf[done..], errors, failed);
        if more == 0 {
            return done;
        }
        done += more;
    }
    done
}

// A line of `start` and a call's answer.
pub fn put_refusal(out: &mut [u8], start: &[u8], reply: Result<usize, Refusal>) -> usize
    requires in_bounds { 160 ≤ length out.old }
    requires start_len_bound { length start.now ≤ 32 }
    ensures prefix_len { IsPrefixLen result out.new }
    ensures value { result ≡ length (start.now ++ outcome_line reply) }
    ensures out_after { out.new ≡ wrote out.old (start.now ++ outcome_line reply) }
{
    let at = words::bytes::copy(start, out);
    at + listing::outcome(&mut out[at..], reply)
}

// A refusal's line, behind `start`.
fn tell_refusal<W: Write>(to: &mut W, start: &[u8], refusal: Refusal) -> io::Result<()>
    requires { length start.now ≤ 32 }
    ensures { OnOk result (Appends (W.contents to.old) (W.contents to.new) (start.now ++ outcome_line (Err refusal))) }
{
    let mut line = [0u8; ROOM];
    let n = put_refusal(&mut line, start, Err(refusal));
    to.write_all(&line[..n])
}

// A refusal's line, behind `start` on `errors` and alone on `out`. Where `errors` cannot be written to, no more is said there.
pub fn print_refusal<W: Write, E: Write>(
    out: &mut W,
    errors: &mut E,
    start: &[u8],
    refusal: Refusal,
) -> io::Result<()>
    requires { length start.now ≤ 32 }
    ensures { OnOk result (Appends (W.contents out.old) (W.contents out.new) (outcome_line (Err refusal))) }
{
    let _ = tell_refusal(errors, start, refusal);
    tell_refusal(out, b"", refusal)
}

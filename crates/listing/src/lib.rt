// What the programs print: each line as text, at the front of a buffer that is lent.
#![tactic(auto)]

ghost use Rattle.std.specs.Prelude.{◌≡◌, ◌≤◌, length, get_or};
ghost use Rattle.io.specs.Counts.{IsPrefixLen};
ghost use Rattle.listing.specs.Lines.{label_line, entry_line, record_line, count_line, outcome_line};
ghost use Rattle.words.specs.Tables.{wrote};
ghost use Rattle.words.specs.Words.{word, long_word};

use refusal::{Outcome, Refusal};
use text::{Column, line};

// Room for the longest line.
pub const ROOM: usize = 128;

// The byte at `at`, 0 beyond the end.
pub fn byte(s: &[u8], at: usize) -> u8
    ensures { result ≡ get_or s.now at 0 }
{
    s.get(at).copied().unwrap_or(0)
}

// The 16-bit number whose first byte stands at `at`.
pub fn word(s: &[u8], at: usize) -> u16
    ensures { result ≡ word s.now at }
{
    if at < s.len() {
        return u16::from_le_bytes([byte(s, at), byte(s, at + 1)]);
    }
    0
}

// The 32-bit number whose first byte stands at `at`.
fn long_word(s: &[u8], at: usize) -> u32
    ensures { result ≡ long_word s.now at }
{
    if at < s.len() {
        return u32::from_le_bytes([
            byte(s, at),
            byte(s, at + 1),
            byte(s, at + 2),
            byte(s, at + 3),
        ]);
    }
    0
}

// The label of a vertex whose twelve bytes stand at `at`.
pub fn label(out: &mut [u8], plan: &[u8], vertex: u64, at: usize) -> usize
    requires in_bounds { 128 ≤ length out.old }
    requires at_bound { at ≤ 2000000 }
    ensures prefix_len { IsPrefixLen result out.new }
    ensures value { result ≡ length (label_line plan.now vertex at) }
    ensures out_after { out.new ≡ wrote out.old (label_line plan.now vertex at) }
{
    let columns = [
        Column::Number(vertex),
        Column::Number(u64::from(byte(plan, at))),
        Column::Character(u64::from(byte(plan, at + 1))),
        Column::Version(u64::from(byte(plan, at + 2))),
        Column::Mask(u64::from(long_word(plan, at + 4))),
        Column::Mask(u64::from(long_word(plan, at + 8))),
    ];
    line(out, &columns)
}

// An array's entry, eight bytes at `at`.
pub fn entry(out: &mut [u8], report: &[u8], at: usize) -> usize
    requires in_bounds { 128 ≤ length out.old }
    requires at_bound { at ≤ 2000000 }
    ensures prefix_len { IsPrefixLen result out.new }
    ensures value { result ≡ length (entry_line report.now at) }
    ensures out_after { out.new ≡ wrote out.old (entry_line report.now at) }
{
    let columns = [
        Column::Number(u64::from(word(report, at))),
        Column::Number(u64::from(long_word(report, at + 2))),
        Column::Number(u64::from(byte(report, at + 6))),
    ];
    line(out, &columns)
}

// A record, ten bytes at `at`.
pub fn record(out: &mut [u8], report: &[u8], at: usize) -> usize
    requires in_bounds { 128 ≤ length out.old }
    requires at_bound { at ≤ 2000000 }
    ensures prefix_len { IsPrefixLen result out.new }
    ensures value { result ≡ length (record_line report.now at) }
    ensures out_after { out.new ≡ wrote out.old (record_line report.now at) }
{
    let columns = [
        Column::Number(u64::from(word(report, at))),
        Column::Number(u64::from(byte(report, at + 2))),
        Column::Number(u64::from(byte(report, at + 3))),
        Column::Number(u64::from(byte(report, at + 4))),
        Column::Number(u64::from(word(report, at + 6))),
        Column::Number(u64::from(word(report, at + 8))),
    ];
    line(out, &columns)
}

// The count of an edge, two bytes at `at`.
pub fn count(out: &mut [u8], report: &[u8], at: usize) -> usize
    requires in_bounds { 128 ≤ length out.old }
    requires at_bound { at ≤ 2000000 }
    ensures prefix_len { IsPrefixLen result out.new }
    ensures value { result ≡ length (count_line report.now at) }
    ensures out_after { out.new ≡ wrote out.old (count_line report.now at) }
{
    line(out, &[Column::Number(u64::from(word(report, at)))])
}

// The number and places of a call's answer.
pub fn outcome(out: &mut [u8], reply: Result<usize, Refusal>) -> usize
    requires { 128 ≤ length out.old }
    ensures prefix_len { IsPrefixLen result out.new }
    ensures value { result ≡ length (outcome_line reply) }
    ensures out_after { out.new ≡ wrote out.old (outcome_line reply) }
{
    let outcome = Outcome::from(reply);
    let columns = [
        Column::Number(outcome.number),
        Column::Number(outcome.first),
        Column::Number(outcome.second),
    ];
    line(out, &columns)
}

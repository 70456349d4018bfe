// Numbers in a list of bytes, of 16 bits and of 32: unsigned, low byte first (document 01, first paragraph).
#![tactic(auto)]

pub mod bytes;

ghost use Rattle.std.specs.Prelude.{◌≡◌, ◌++◌, ◌+◌, ◌≤◌, ◌<◌, length};
ghost use Rattle.words.specs.Tables.{wrote};
ghost use Rattle.words.specs.Words.{word, bytes16, bytes32};

// The number whose first byte stands at `at`.
pub fn at(s: &[u8], at: usize) -> usize
    requires { at + 1 < length s.now }
    ensures { result ≡ word s.now at }
{
    u16::from_le_bytes([s[at], s[at + 1]]) as usize
}

// Writes a number of 16 bits at the front of what is lent.
pub fn write16(out: &mut [u8], n: usize)
    requires in_bounds { 2 ≤ length out.old }
    requires n_bound { n < 65536 }
    ensures { out.new ≡ wrote out.old (bytes16 n) }
{
    out[0] = (n % 256) as u8;
    out[1] = (n / 256) as u8;
}

// Writes two of them.
pub fn write_pair(out: &mut [u8], first: usize, second: usize)
    requires in_bounds { 4 ≤ length out.old }
    requires first_bound { first < 65536 }
    requires second_bound { second < 65536 }
    ensures { out.new ≡ wrote out.old (bytes16 first ++ bytes16 second) }
{
    write16(out, first);
    write16(&mut out[2..], second);
}

// Writes a number of 32 bits.
pub fn write32(out: &mut [u8], n: u32)
    requires { 4 ≤ length out.old }
    ensures { out.new ≡ wrote out.old (bytes32 n) }
{
    out[0] = (n % 256) as u8;
    out[1] = (n / 256 % 256) as u8;
    out[2] = (n / 65536 % 256) as u8;
    out[3] = (n / 16777216) as u8;
}

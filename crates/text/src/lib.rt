// Numbers as text, in ASCII, and lines of columns. Not by `Display`: the contracts promise each byte, and what `write!` prints has no clause.
#![tactic(auto)]

ghost use Rattle.std.specs.Prelude.{◌≡◌, cond, [], ◌∷◌, ◌++◌, ◌*◌, ◌≤◌, length};
ghost use Rattle.io.specs.Counts.{IsPrefixLen};
ghost use Rattle.text.specs.Text.{decimal, mask_text, version_text, column_text, line};
ghost use Rattle.words.specs.Tables.{wrote};

// A column of a line.
#[derive(Clone, Copy, Debug, PartialEq, Eq)]
pub enum Column {
    // In decimal.
    Number(u64),
    // One byte, the lowest of the number.
    Character(u64),
    // In decimal; 255 is none, and shown as `-`.
    Version(u64),
    // The lowest 32 bits, as eight hexadecimal digits.
    Mask(u64),
}

// A number in decimal.
fn put_decimal(out: &mut [u8], n: u64) -> usize
    requires { 20 ≤ length out.old }
    ensures value { result ≡ length (decimal n) }
    ensures out_after { out.new ≡ wrote out.old (decimal n) }
{
    let mut digits = [0u8; 20];
    let k = io::decimal(n, &mut digits);
    words::bytes::copy(&digits[..k], out)
}

// A mask as eight hexadecimal digits.
fn put_mask(out: &mut [u8], n: u64) -> usize
    requires { 20 ≤ length out.old }
    ensures value { result ≡ length (mask_text n) }
    ensures out_after { out.new ≡ wrote out.old (mask_text n) }
{
    let mut digits = [0u8; 16];
    let k = io::hex(n % 4294967296, 8, &mut digits);
    words::bytes::copy(&digits[..k], out)
}

// One character.
fn put_character(out: &mut [u8], byte: u8) -> usize
    requires { 20 ≤ length out.old }
    ensures value { result ≡ 1 }
    ensures out_after { out.new ≡ wrote out.old (byte ∷ []) }
{
    out[0] = byte;
    1
}

// A version; 255 is none.
fn put_version(out: &mut [u8], n: u64) -> usize
    requires { 20 ≤ length out.old }
    ensures value { result ≡ length (version_text n) }
    ensures out_after { out.new ≡ wrote out.old (version_text n) }
{
    if n == 255 {
        return put_character(out, b'-');
    }
    put_decimal(out, n)
}

// A column, and how many bytes it has.
fn put_column(out: &mut [u8], column: Column) -> usize
    requires { 20 ≤ length out.old }
    ensures value { result ≡ length (column_text column) }
    ensures out_after { out.new ≡ wrote out.old (column_text column) }
{
    match column {
        Column::Number(n) => put_decimal(out, n),
        Column::Character(n) => put_character(out, (n % 256) as u8),
        Column::Version(n) => put_version(out, n),
        Column::Mask(n) => put_mask(out, n),
    }
}

// A line feed after the last column, a space after any other.
fn separator_after(last: bool) -> u8
    ensures { result ≡ cond last 10 32 }
{
    if last {
        return b'\n';
    }
    b' '
}

// A column and its separator.
fn put_cell(out: &mut [u8], column: Column, last: bool) -> usize
    requires { 21 ≤ length out.old }
    ensures value { result ≡ length (column_text column ++ (cond last 10 32 ∷ [])) }
    ensures out_after { out.new ≡ wrote out.old (column_text column ++ (cond last 10 32 ∷ [])) }
{
    let at = put_column(out, column);
    out[at] = separator_after(last);
    at + 1
}

// A line of columns at the front of what is lent, and how many bytes it has.
pub fn line(out: &mut [u8], columns: &[Column]) -> usize
    requires { 21 * length columns.now ≤ length out.old }
    ensures prefix_len { IsPrefixLen result out.new }
    ensures value { result ≡ length (line columns.now) }
    ensures out_after { out.new ≡ wrote out.old (line columns.now) }
{
    let mut at = 0;
    for (i, column) in columns.iter().enumerate() {
        at += put_cell(&mut out[at..], *column, i + 1 == columns.len());
    }
    at
}

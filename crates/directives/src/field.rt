// Fields of a directive file: each has its place, its width and its test. A byte or a number behind the end of the file is read as 0, and its
// field fails there.
ghost use Rattle.std.specs.Prelude.{◌≡◌, ◌≤◌, ◌<◌, get_or};
ghost use Rattle.words.specs.Words.{word};
ghost use Rattle.directives.specs.Fields.{field_check};
ghost use Rattle.directives.specs.Layout.{longest};

use refusal::Refusal;

// The byte at `at`.
pub fn byte_at(file: &[u8], at: usize) -> usize
    ensures value { result ≡ get_or file.now at 0 }
    ensures upper_bound { result < 256 }
{
    if at < file.len() {
        file[at] as usize
    } else {
        0
    }
}

// The 16-bit number at `at`.
pub fn word_at(file: &[u8], at: usize) -> usize
    requires { at ≤ longest }
    ensures value { result ≡ word file.now at }
    ensures upper_bound { result < 65536 }
{
    byte_at(file, at) + 256 * byte_at(file, at + 1)
}

// A field of `wide` bytes from `at` on.
pub fn check(file: &[u8], at: usize, wide: usize, right: bool) -> Result<(), Refusal>
    requires at_le_longest { at ≤ longest }
    requires wide_bound { wide ≤ 4 }
    ensures { result ≡ field_check file.now (record { at = at; wide = wide; right = right }) }
{
    let end = file.len();
    if at + wide > end {
        return Err(Refusal::MalformedDirectives { byte: end });
    }
    if !right {
        return Err(Refusal::MalformedDirectives { byte: at });
    }
    Ok(())
}

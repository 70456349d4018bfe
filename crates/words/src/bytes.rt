// Bytes that are copied from one slice to another.
ghost use Rattle.std.specs.Prelude.{◌≡◌, ◌≤◌, length};
ghost use Rattle.words.specs.Tables.{wrote};

// Copies all of `from` to the front of `to`, and answers how many bytes that is. By a loop, since std's copy asks the linker for `memmove`.
pub fn copy(from: &[u8], to: &mut [u8]) -> usize
    requires { length from.now ≤ length to.old }
    ensures value { result ≡ length from.now }
    ensures out_after { to.new ≡ wrote to.old from.now }
{
    let n = from.len();
    for i in 0..n {
        to[i] = from[i];
    }
    n
}

// The file with each call read as the reference of its intent (document 02, request 3): 20 and 21 are asked of it, and it says which
// versions arrive at a call.
ghost use Rattle.std.specs.Prelude.{◌≡◌, ◌+◌, ◌≤◌, length, get_or};
ghost use Rattle.calls.specs.Calls.{intent_byte};
ghost use Rattle.calls.specs.Referring.{referring_byte, referring};
ghost use Rattle.words.specs.Tables.{replaced};

use labels::read::Routine;
use routine::action;

// What the intent of a call's byte does with the array, as an action byte: in reads, out defines, inout modifies.
pub fn intent_byte(b: u8) -> u8
    ensures { result ≡ intent_byte b }
{
    if b < 0x80 {
        return 0x10;
    }
    if b < 0xc0 {
        return 0x20;
    }
    0x30
}

// A call's byte as that of its intent, any other as it is.
fn referring_byte(b: u8) -> u8
    ensures { result ≡ referring_byte b }
{
    let call = action::is_call(b);
    if call {
        return intent_byte(b);
    }
    b
}

// Replaces the n bytes from `at` on.
fn replace(file: &[u8], at: usize, n: usize, out: &mut [u8])
    requires n_in_bounds { at + n ≤ length file.now }
    requires out_len { length out.old ≡ length file.now }
    ensures { out.new ≡ replaced out.old at (λ i. referring_byte (get_or file.now (at + i) 0)) n }
{
    for i in 0..n {
        out[at + i] = referring_byte(file[at + i]);
    }
}

// Writes the file with calls as references.
pub fn write(routine: &Routine, out: &mut [u8])
    requires { length out.old ≡ length routine.now.bytes }
    ensures { out.new ≡ referring routine.now.bytes }
{
    let file = routine.bytes();
    let h = routine.header();
    words::bytes::copy(file, out);
    replace(file, h.actions_at(), h.vertices * h.arrays, out);
}

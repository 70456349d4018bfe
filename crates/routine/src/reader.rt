// The reader: checks 10 to 14, then 15 with 17, 18 and 19, then 16 (document 01, "Who can cause a refusal"; document 02, request 2).
ghost use Rattle.std.specs.Prelude.{◌≡◌};
ghost use Rattle.routine.specs.Reader.{body_check, read_of, denied_of};

use crate::header::Header;
use crate::laid::Laid;
use crate::{action, array, edge, header};
use refusal::Refusal;

// Checks 14, 15 with 17 to 19, and 16.
fn check_bodies(laid: &Laid) -> Result<(), Refusal>
    ensures { result ≡ body_check laid.now.bytes }
{
    array::check_all(laid)?;
    action::check_all(laid)?;
    edge::check_all(laid)
}

// The routine's header, or the refusal, for any list of bytes.
pub fn read(file: &[u8]) -> Result<Header, Refusal>
    ensures { result ≡ read_of file.now }
{
    header::check_form(file)?;
    let h = Header::of(file);
    let laid = Laid::new(file, h);
    check_bodies(&laid)?;
    Ok(h)
}

// The reader's refusal as a call's answer; for a header, of which nothing is handed on, no length.
pub fn denied(answer: Result<Header, Refusal>) -> Result<usize, Refusal>
    ensures { result ≡ denied_of answer }
{
    match answer {
        Ok(_) => Ok(0),
        Err(refusal) => Err(refusal),
    }
}

// Check 40: the file read from front to back.
ghost use Rattle.std.specs.Prelude.{◌≡◌};
ghost use Rattle.directives.specs.Fields.{in_order, end_fields, check40};

use crate::header::Header;
use crate::laid::Laid;
use crate::{array, edge, header, spread, vertex};
use refusal::Refusal;

// No byte stands behind the last edge.
fn check_end(laid: &Laid) -> Result<(), Refusal>
    ensures { result ≡ in_order laid.now.bytes (end_fields laid.now.bytes) }
{
    let end = laid.end_at();
    laid.check(end, 0, laid.bytes().len() <= end)
}

// The answer for any list of bytes.
pub fn check(file: &[u8]) -> Result<(), Refusal>
    ensures { result ≡ check40 file.now }
{
    header::check(file)?;
    let laid = Laid::new(file, Header::of(file));
    spread::check_templates(&laid)?;
    array::check_all(&laid)?;
    vertex::check_all(&laid)?;
    edge::check_all(&laid)?;
    check_end(&laid)
}

ghost use Rattle.std.specs.Prelude.{◌≡◌};
ghost use Rattle.py_plain.specs.Comparing.{truth};

use crate::ends::PlainEnd;
use rp_base::{Beyond, Plain};

/// Whether Python takes the value for true. False are `None`, `False`, 0 and what is empty; `NotImplemented` is
/// `Beyond(Truth)`; each other value is true. Takes no memory.
pub fn plain_truth(a: &Plain) -> Result<bool, PlainEnd>
    ensures { result ≡ truth a.now }
{
    match a {
        Plain::None => Ok(false),
        Plain::Bool(b) => Ok(*b),
        Plain::Int(n) => Ok(*n != 0),
        Plain::Text(text) => Ok(!text.is_empty()),
        Plain::Bytes(bytes) => Ok(!bytes.is_empty()),
        Plain::Tuple(items) => Ok(items.len() != 0),
        Plain::NotImpl => Err(PlainEnd::Beyond(Beyond::Truth)),
        Plain::Ellipsis => Ok(true),
    }
}

ghost use Rattle.std.specs.Prelude.{◌≡◌};
ghost use Rattle.change_codec.specs.Names as spec;

use sha2::{Digest, Sha256};
use tt_base::Name;

/// The name of the change with this encoding: its SHA-256 digest (FIPS 180-4).
///
/// That two encodings differ in their names is not known here: where they do not, both are told.
pub fn name_of(encoding: &[u8]) -> Name
    ensures { result ≡ spec.name_of encoding.now }
{
    Name(Sha256::digest(encoding))
}

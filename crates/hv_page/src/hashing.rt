// The digest of a page.
ghost use Rattle.std.specs.Prelude.{◌≡◌, length};
ghost use Rattle.sha2.specs.Sha256.{sha256};

use hv_row::Digest;
use sha2::Sha256;

/// SHA-256 (FIPS 180-4) of a page's 4,096 bytes. Takes no memory.
pub fn digest(page: &[u8]) -> Digest
    requires { length page.now ≡ 4096 }
    ensures { result ≡ sha256 page.now }
{
    Digest::new(<Sha256 as sha2::Digest>::digest(page))
}

// What a page is called in a pool.
ghost use Rattle.std.specs.Prelude.{◌≡◌};
ghost use Rattle.hv_pool.specs.Key.{same_key};

use hv_row::Digest;

/// A page by its chunk, its number there, and the digest that the chunk records for it.
#[derive(Clone, Copy, Debug, PartialEq, Eq, PartialOrd, Ord)]
pub struct PageKey {
    pub chunk: u32,
    pub page: u32,
    pub digest: Digest,
}

/// Whether the two name one page.
pub fn same(a: &PageKey, b: &PageKey) -> bool
    ensures { result ≡ same_key a.now b.now }
{
    a == b
}

// Digests: of an image's bytes, and of a cache's entries.
ghost use Rattle.std.specs.Prelude.{◌≡◌, ◌<◌};
ghost use Rattle.cache.specs.Code.{pointers};
ghost use Rattle.lists.specs.Says.{mix, digest, digest_entries};

use cache::Cache;

// A digest is below this prime.
const PRIME: u64 = 4294967291;

// A digest with one number more.
fn mix(h: u64, x: u32) -> u64
    requires { h < PRIME }
    ensures { (result ≡ mix h x) × (result < PRIME) }
{
    (h * 1000003 + u64::from(x)) % PRIME
}

// The digest of bytes.
pub fn of_bytes(s: &[u8]) -> u64
    ensures { result ≡ digest 1 s.now }
{
    let mut h = 1;
    for b in s {
        h = mix(h, u32::from(*b));
    }
    h
}

// The digest of all 32 entries, key and place each.
pub fn of_cache(cache: Cache) -> u64
    ensures { result ≡ digest_entries 1 (pointers 32 cache) }
{
    let mut h = 1;
    for (key, place) in cache.keys.iter().zip(&cache.places) {
        h = mix(mix(h, *key), *place);
    }
    h
}

// The cache of places: two arrays of 32, of which a call uses the first entries.
#![tactic(auto)]

ghost use Rattle.std.specs.Prelude.{◌≡◌, ◌∷◌, ◌++◌, suc, ◌-◌, ◌≤◌, ◌<◌, length, take, drop, replicate, MatchOption};
ghost use Rattle.rules.specs.Cache.{lookup, forget, clear};
ghost use Rattle.cache.specs.Code.{entries, pointers, Past, NotedOk, index};

// Entries in order, newest first. Place 0 is an empty entry.
// Two arrays and no list of pairs: C lends the cache as 32 keys and then 32 places.
#[repr(C)]
#[derive(Clone, Copy)]
pub struct Cache {
    pub keys: [u32; 32],
    pub places: [u32; 32],
}

// `size`, how many entries count, is the caller's at each call: C lends a cache whole.
impl Cache {
    // A cache of empty entries.
    pub fn new() -> Cache
        ensures { (result.keys ≡ replicate 32 0) × (result.places ≡ replicate 32 0) }
    {
        Cache {
            keys: [0; 32],
            places: [0; 32],
        }
    }

    // The index of the first entry in use with the key.
    pub fn seek(&self, size: usize, key: u32) -> Option<usize>
        requires { size ≤ 32 }
        ensures { MatchOption result (size ≤ index key (pointers size self.now))
            (λ i. (i < size) × (i ≡ index key (pointers size self.now))) }
    {
        index_of(&self.keys[..size], &self.places[..size], key)
    }

    // The place that the cache has for the key.
    pub fn find(&self, size: usize, key: u32) -> Option<u32>
        requires { size ≤ 32 }
        ensures { MatchOption result (lookup key (pointers size self.now) ≡ 0)
            (λ p. (0 < p) × (p ≡ lookup key (pointers size self.now))) }
    {
        let i = self.seek(size, key)?;
        Some(self.places[i])
    }

    // The key's entry, which is i, goes to the front with this place.
    pub fn renew(&mut self, size: usize, i: usize, key: u32, place: u32)
        requires { (size ≤ 32) × (i < size) × (i ≡ index key (pointers size self.old)) }
        ensures { NotedOk size key place self.old self.new }
    {
        renew(&mut self.keys, &mut self.places, size, i, key, place);
    }

    // The key with this place at the front: its old entry is gone, or else the last.
    pub fn note(&mut self, size: usize, key: u32, place: u32)
        requires { size ≤ 32 }
        ensures { NotedOk size key place self.old self.new }
    {
        if size == 0 {
            return;
        }
        let i = self.seek(size, key).unwrap_or(size - 1);
        to_front(&mut self.keys, i, key);
        to_front(&mut self.places, i, place);
    }

    // The key's entry goes empty to the back.
    pub fn forget(&mut self, size: usize, key: u32)
        requires { size ≤ 32 }
        ensures { (pointers size self.new ≡ forget key (pointers size self.old)) × Past size self.old self.new }
    {
        if let Some(i) = self.seek(size, key) {
            pull(&mut self.keys, i, size);
            pull(&mut self.places, i, size);
        }
    }

    // All entries in use are empty.
    pub fn empty(&mut self, size: usize)
        requires { size ≤ 32 }
        ensures { (pointers size self.new ≡ clear (pointers size self.old)) × Past size self.old self.new }
    {
        self.keys[..size].fill(0);
        self.places[..size].fill(0);
    }
}

// The index of the first entry in use with the key, in the keys and places of some entries.
pub fn index_of(keys: &[u32], places: &[u32], key: u32) -> Option<usize>
    requires { length places.now ≡ length keys.now }
    ensures { MatchOption result (length keys.now ≤ index key (entries keys.now places.now))
        (λ i. (i < length keys.now) × (i ≡ index key (entries keys.now places.now))) }
{
    keys.iter()
        .zip(places)
        .position(|(k, place)| *k == key && *place != 0)
}

// The same for keys and places that are lent apart.
pub fn renew(
    keys: &mut [u32; 32],
    places: &mut [u32; 32],
    size: usize,
    i: usize,
    key: u32,
    place: u32,
)
    requires { (size ≤ 32) × (i < size)
        × (i ≡ index key (pointers size (record { keys = keys.old; places = places.old }))) }
    ensures { NotedOk size key place (record { keys = keys.old; places = places.old })
        (record { keys = keys.new; places = places.new }) }
{
    to_front(keys, i, key);
    to_front(places, i, place);
}

// x at the front, and the elements before j one further: the one at j is gone.
fn to_front(a: &mut [u32; 32], j: usize, x: u32)
    requires { j < 32 }
    ensures { a.new ≡ x ∷ (take j a.old ++ drop (suc j) a.old) }
{
    a.copy_within(..j, 1);
    a[0] = x;
}

// Of the first n elements the one at j is gone, those after it are one nearer, and the last is 0.
fn pull(a: &mut [u32; 32], j: usize, n: usize)
    requires { (j < n) × (n ≤ 32) }
    ensures { a.new ≡ take (n - 1) (take j a.old ++ drop (suc j) a.old) ++ (0 ∷ drop n a.old) }
{
    a.copy_within(j + 1..n, j);
    a[n - 1] = 0;
}

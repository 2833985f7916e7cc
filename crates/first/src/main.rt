// A first use of the map: stores a value, fetches it, and writes it to standard output.
#![tactic(auto)]

use cache::Cache;
use rules::Answer;
use std::io;

fn main(rt: HostRuntime) -> io::Result<()> {
    let mut img = [255u8; 64]; // blank flash, two pages of 32 bytes
    let empty = Cache {
        keys: [0u32; 32],
        places: [0u32; 32],
    };
    let stored = map::store_item(&mut img, 32, empty, 2, 1, b"5150 ticks\n"); // key 1, a cache of 2 entries
    let cache = stored.cache; // a call hands the cache back; the next call takes it
    let fetched = map::fetch_item(&mut img, 32, cache, 2, 1);
    let a = fetched.answer;
    let Answer::Value(place, len) = a else {
        return Ok(());
    };
    rt.write_all(map::view(&img, place, len)) // a part of img, not a copy
}

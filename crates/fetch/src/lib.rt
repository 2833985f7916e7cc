// What a call works on, and the fetch inside a call: the cached place, else the search.
#![tactic(auto)]

ghost use Rattle.std.specs.Prelude.{◌≡◌, ℕ, ◌<◌, IfOk, MatchOption, length};
ghost use Rattle.rules.specs.Cache.{lookup};
ghost use Rattle.rules.specs.Fetch.{full_fetch, fetch_in};
ghost use Rattle.items.specs.Code.{told, SpotIn};
ghost use Rattle.cache.specs.Code.{pointers, Past};
ghost use Rattle.fetch.specs.Code.{read_on};

pub mod storage;

use cache::Cache;
use items::{Corrupt, Spot};
use ring::Pages;
use storage::Slots;

// The search, its find noted.
fn full_fetch(
    pages: &Pages<'_>,
    cache: &mut Cache,
    slots: Slots,
    key: u32,
) -> Result<Option<Spot>, Corrupt>
    ensures found { (n : ℕ) → result ≡ told (full_fetch pages.now.geo key (read_on pages.now slots cache.old n)).res }
    ensures state { (n : ℕ) → read_on pages.now slots cache.new n
        ≡ (full_fetch pages.now.geo key (read_on pages.now slots cache.old n)).st }
    ensures within { IfOk result (SpotIn (length pages.now.img.now)) }
    ensures past { Past slots.count cache.old cache.new }
{
    let found = search::newest(pages, key)?;
    if let Some(spot) = found {
        cache.note(slots.count, key, spot.at as u32);
    }
    Ok(found)
}

// The fetch at the place that the cache has for the key: anything but a Present item with this key empties the cache and
// searches.
fn fetch_at(
    pages: &Pages<'_>,
    cache: &mut Cache,
    slots: Slots,
    key: u32,
    cached: Option<u32>,
) -> Result<Option<Spot>, Corrupt>
    requires { MatchOption cached (lookup key (pointers slots.count cache.old) ≡ 0)
        (λ p. (0 < p) × (p ≡ lookup key (pointers slots.count cache.old))) }
    ensures found { (n : ℕ) → result ≡ told (fetch_in pages.now.geo key (read_on pages.now slots cache.old n)).res }
    ensures state { (n : ℕ) → read_on pages.now slots cache.new n
        ≡ (fetch_in pages.now.geo key (read_on pages.now slots cache.old n)).st }
    ensures within { IfOk result (SpotIn (length pages.now.img.now)) }
    ensures past { Past slots.count cache.old cache.new }
{
    let Some(place) = cached else {
        return full_fetch(pages, cache, slots, key);
    };
    let Some(spot) = search::hit(pages, key, place as usize) else {
        cache.empty(slots.count);
        return full_fetch(pages, cache, slots, key);
    };
    Ok(Some(spot))
}

// The fetch inside a call, of pages that are lent for reading: its statement is for any count of erased pages.
pub fn fetch_in(
    pages: &Pages<'_>,
    cache: &mut Cache,
    slots: Slots,
    key: u32,
) -> Result<Option<Spot>, Corrupt>
    ensures found { (n : ℕ) → result ≡ told (fetch_in pages.now.geo key (read_on pages.now slots cache.old n)).res }
    ensures state { (n : ℕ) → read_on pages.now slots cache.new n
        ≡ (fetch_in pages.now.geo key (read_on pages.now slots cache.old n)).st }
    ensures within { IfOk result (SpotIn (length pages.now.img.now)) }
    ensures past { Past slots.count cache.old cache.new }
{
    let cached = cache.find(slots.count, key);
    fetch_at(pages, cache, slots, key, cached)
}

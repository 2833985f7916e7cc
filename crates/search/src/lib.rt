// The search around the ring, and what a cached place holds.
#![tactic(auto)]

ghost use Rattle.std.specs.Prelude.{◌≡◌, ◌+◌, ◌^◌, ◌≤◌, ◌<◌, Ok, IfOk, length};
ghost use Rattle.rules.specs.Items.{read};
ghost use Rattle.rules.specs.Fetch.{search_closed, search_from, newest, hit_item, hit};
ghost use Rattle.items.specs.Code.{told, SpotIn, part};
ghost use Rattle.ring.specs.Code.{downs};

use items::{Corrupt, Read, Spot};
use ring::Pages;
use rules::PageState;

// The last Present item with the key on the first Closed pages of count pages from one down.
fn search_closed(pages: &Pages<'_>, key: u32, from: usize, count: usize) -> Option<Spot>
    requires { from < pages.now.geo.pages }
    ensures { (Ok result ≡ told (search_closed pages.now.geo pages.now.img.now key (downs pages.now.geo count from)))
        × SpotIn (length pages.now.img.now) result }
{
    let mut q = from;
    for _ in 0..count {
        if !pages.page_is(q, PageState::Closed) {
            return None;
        }
        if let Some(spot) = pages.last_item(q, key) {
            return Some(spot);
        }
        q = pages.prev(q);
    }
    None
}

// The same from p down: p in any state, the others while they are Closed.
fn search_from(pages: &Pages<'_>, key: u32, p: usize) -> Option<Spot>
    requires { p < pages.now.geo.pages }
    ensures { (Ok result ≡ told (search_from pages.now.geo pages.now.img.now key p))
        × SpotIn (length pages.now.img.now) result }
{
    if let Some(spot) = pages.last_item(p, key) {
        return Some(spot);
    }
    search_closed(pages, key, pages.prev(p), pages.geo.pages - 1)
}

// The newest item with the key: the search without a cache.
pub fn newest(pages: &Pages<'_>, key: u32) -> Result<Option<Spot>, Corrupt>
    ensures is { result ≡ told (newest pages.now.geo pages.now.img.now key) }
    ensures within { IfOk result (SpotIn (length pages.now.img.now)) }
{
    if let Some(p) = pages.first(PageState::PartialOpen) {
        return Ok(search_from(pages, key, p));
    }
    let Some(open) = pages.first(PageState::Open) else {
        return Err(Corrupt);
    };
    let q = pages.prev(open);
    if pages.page_is(q, PageState::Closed) {
        return Ok(search_from(pages, key, q));
    }
    Ok(None)
}

// The Present item with the key at place a of a data area that ends at e.
fn hit_at(img: &[u8], a: usize, e: usize, w: usize, key: u32) -> Option<Spot>
    requires { (4 ≤ a) × (a ≤ e) × (e ≤ length img.now) × (4 ≤ w) × (w ≤ 8) }
    ensures { (Ok result ≡ told (hit_item key a (read w (part img.now a e)))) × SpotIn e result }
{
    let Read::Item(len) = items::look_at(img, a, e, w) else {
        return None;
    };
    if items::has_key(&img[a..e], len, key) {
        return Some(Spot { at: a, len });
    }
    None
}

// The item that a cached place holds, on a word and wholly in one data area.
pub fn hit(pages: &Pages<'_>, key: u32, a: usize) -> Option<Spot>
    requires { a < 2 ^ 62 }
    ensures { (Ok result ≡ told (hit pages.now.geo pages.now.img.now key a)) × SpotIn (length pages.now.img.now) result }
{
    let geo = pages.geo;
    let r = a % geo.page;
    if geo.pages <= a / geo.page {
        return None;
    }
    if r < geo.word {
        return None;
    }
    if geo.page - geo.word < r {
        return None;
    }
    if r % geo.word != 0 {
        return None;
    }
    hit_at(pages.img, a, a + (geo.page - geo.word - r), geo.word, key)
}

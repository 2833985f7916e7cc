// The walk: its first page, and a step from a cursor to the next item.
#![tactic(auto)]

ghost use Rattle.std.specs.Prelude.{◌≡◌, ◌≤◌, ◌<◌, MatchOption, length};
ghost use Rattle.rules.specs.Items.{presents};
ghost use Rattle.rules.specs.Pages.{state, ring_up, end_at};
ghost use Rattle.rules.specs.Walk.{walk_first, in_order, head_step, later_pages, walk_step, ended};
ghost use Rattle.items.specs.Code.{scan_in};
ghost use Rattle.walk.specs.Code.{head_spot, Fits, told_step, is_listed, page_step};

use items::{Read, Spot};
use ring::Pages;
use rules::{Cursor, PageState};

// An item that a step comes to: its key, its value's place and length, and the cursor after it.
#[derive(Clone, Copy, PartialEq, Eq)]
pub struct Stepped {
    pub key: u32,
    pub place: usize,
    pub len: usize,
    pub cursor: Cursor,
}

// The first Present item from a place to the area's end: each reading says where the next one stands.
fn first_in(img: &[u8], a: usize, e: usize, w: usize) -> Option<Spot>
    requires { (a ≤ e) × (e ≤ length img.now) × (4 ≤ w) × (w ≤ 8) }
    ensures { (result ≡ head_spot (presents (scan_in w img.now a e).items)) × Fits w e result }
{
    let mut at = a;
    while at < e {
        match items::look_at(img, at, e, w) {
            Read::End => return None,
            Read::Skip => at += w,
            Read::Item(len) => {
                if items::present(&img[at..e], len) {
                    return Some(Spot { at, len });
                }
                at += words::size(w, len);
            }
        }
    }
    None
}

// A step to the first Present item of the cursor's page from its place on.
fn step_in(pages: &Pages<'_>, cursor: Cursor) -> Option<Stepped>
    requires { (cursor.page < pages.now.geo.pages) × (cursor.place ≤ end_at pages.now.geo cursor.page) }
    ensures { let G = pages.now.geo in
        let items = (scan_in G.word pages.now.img.now cursor.place (end_at G cursor.page)).items in
        result ≡ told_step (head_step G cursor.first cursor.page (presents items) ended) }
{
    let word = pages.geo.word;
    let end = pages.end_at(cursor.page);
    let Spot { at, len } = first_in(pages.img, cursor.place, end, word)?;
    Some(Stepped {
        key: items::key(&pages.img[at..end], len),
        place: at + 12,
        len: len - 4,
        cursor: Cursor {
            place: at + words::size(word, len),
            ..cursor
        },
    })
}

// The page that a walk starts at.
pub fn walk_first(pages: &Pages<'_>) -> Option<usize>
    ensures { MatchOption result (walk_first pages.now.geo pages.now.img.now ≡ pages.now.geo.pages)
        (λ p. (p < pages.now.geo.pages) × (p ≡ walk_first pages.now.geo pages.now.img.now)) }
{
    if let Some(partial) = pages.first(PageState::PartialOpen) {
        return Some(pages.next(partial));
    }
    let open = pages.first(PageState::Open)?;
    if pages.page_is(pages.prev(open), PageState::Closed) {
        return Some(open);
    }
    Some(0)
}

// Does a cursor stand on a word of a page's data area? It may hold any numbers.
fn in_order(pages: &Pages<'_>, cursor: Cursor) -> bool
    ensures { result ≡ in_order pages.now.geo cursor }
{
    cursor.page < pages.geo.pages
        && cursor.first < pages.geo.pages
        && pages.data_at(cursor.page) <= cursor.place
        && cursor.place <= pages.end_at(cursor.page)
        && cursor.place % pages.geo.word == 0
}

// Is page q listed where it is not the first of a walk?
fn listed(pages: &Pages<'_>, q: usize) -> bool
    requires { q < pages.now.geo.pages }
    ensures { result ≡ is_listed (state pages.now.geo pages.now.img.now q) }
{
    matches!(pages.state(q), PageState::PartialOpen | PageState::Closed)
}

// A step to the first Present item of page q, where it is listed.
fn page_step(pages: &Pages<'_>, first: usize, q: usize) -> Option<Stepped>
    requires { q < pages.now.geo.pages }
    ensures { result ≡ told_step (page_step pages.now.geo pages.now.img.now first q ended) }
{
    if !listed(pages, q) {
        return None;
    }
    let place = pages.data_at(q);
    step_in(
        pages,
        Cursor {
            first,
            page: q,
            place,
        },
    )
}

// A step to the first Present item of the pages from a page upwards, up to the first page.
fn later(pages: &Pages<'_>, first: usize, from: usize) -> Option<Stepped>
    requires { from < pages.now.geo.pages }
    ensures { result ≡ told_step (later_pages pages.now.geo pages.now.img.now first (ring_up pages.now.geo from)) }
{
    let mut q = from;
    for _ in 0..pages.geo.pages {
        if q == first {
            return None;
        }
        if let Some(step) = page_step(pages, first, q) {
            return Some(step);
        }
        q = pages.next(q);
    }
    None
}

// A step from any cursor.
pub fn walk_step(pages: &Pages<'_>, cursor: Cursor) -> Option<Stepped>
    ensures { result ≡ told_step (walk_step pages.now.geo pages.now.img.now cursor) }
{
    if !in_order(pages, cursor) {
        return None;
    }
    if let Some(step) = step_in(pages, cursor) {
        return Some(step);
    }
    later(pages, cursor.first, pages.next(cursor.page))
}

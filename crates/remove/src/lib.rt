// Removal of one key and of all, and erase all.
#![tactic(auto)]

ghost use Rattle.std.specs.Prelude.{◌≡◌, ◌+◌, ◌^◌, ◌≤◌, ◌<◌, length};
ghost use Rattle.rules.specs.Items.{item_of};
ghost use Rattle.rules.specs.Remove.{forgetting, remove_start, run_remove, erase_all};
ghost use Rattle.items.specs.Code.{part};
ghost use Rattle.fetch.specs.Code.{st_of, KeepsImage, RunOk};
ghost use Rattle.remove.specs.Code.{which_of, hits, RemovedOk, EntriesOk, PageOk, PagesOk};

use fetch::storage::Storage;
use items::Read;
use ring::Pages;
use ring::flash::Flash;
use rules::{Answer, PageState};

// What is to be removed: every key, or one. No Option, whose None would read as nothing.
#[derive(Clone, Copy, PartialEq, Eq)]
pub enum Which {
    Every,
    Only(u32),
}

// Is the item of data length len at the start of s Present, and to be removed?
fn matches(s: &[u8], len: usize, which: Which) -> bool
    requires { (8 + len ≤ length s.now) × (len < 65536) }
    ensures { result ≡ hits (which_of which) (item_of s.now len) }
{
    match which {
        Which::Every => items::present(s, len),
        Which::Only(key) => items::has_key(s, len, key),
    }
}

// The steps take the flash and what is to be removed side by side: a struct of both would say no more.

// The item at a place becomes Removed, if it is Present and to be removed: its check word is programmed to 0.
fn remove_item(flash: &mut Flash<'_>, at: usize, end: usize, len: usize, which: Which)
    requires { (at + 8 + len ≤ end) × (end ≤ length flash.old.img.now) × (len < 65536) }
    ensures { RemovedOk (hits (which_of which) (item_of (part flash.old.img.now at end) len)) flash.old flash.new at }
{
    if matches(&flash.pages().img[at..end], len, which) {
        flash.program(at + 4, &[0; 4]);
    }
}

// The items from a place to the area's end, in order: each says where the next one stands.
fn remove_entries(flash: &mut Flash<'_>, from: usize, end: usize, which: Which)
    requires { (from ≤ end) × (end ≤ length flash.old.img.now) }
    ensures { EntriesOk (which_of which) from end flash.old flash.new }
{
    let word = flash.geo.word;
    let mut at = from;
    while at < end {
        match items::look_at(flash.pages().img, at, end, word) {
            Read::End => {
                return;
            }
            Read::Skip => {
                at += word;
            }
            Read::Item(len) => {
                remove_item(flash, at, end, len, which);
                at += words::size(word, len);
            }
        }
    }
}

// The items of page p, unless it is Open.
fn remove_page(flash: &mut Flash<'_>, p: usize, which: Which)
    requires { p < flash.old.geo.pages }
    ensures { PageOk (which_of which) p flash.old flash.new }
{
    let pages = flash.pages();
    if pages.page_is(p, PageState::Open) {
        return;
    }
    let from = pages.data_at(p);
    let end = pages.end_at(p);
    remove_entries(flash, from, end, which);
}

// All pages, from one upwards around the ring.
fn remove_pages(flash: &mut Flash<'_>, from: usize, which: Which)
    requires { from < flash.old.geo.pages }
    ensures { PagesOk (which_of which) from flash.old flash.new }
{
    let mut p = from;
    for _ in 0..flash.geo.pages {
        remove_page(flash, p, which);
        p = flash.pages().next(p);
    }
}

// Where a removal starts: after the PartialOpen page, or else after the last Closed one, or else at page 1.
fn start(pages: &Pages<'_>) -> usize
    ensures { (result ≡ remove_start pages.now.geo pages.now.img.now) × (result < pages.now.geo.pages) }
{
    if let Some(p) = pages.first(PageState::PartialOpen) {
        return pages.next(p);
    }
    let last = pages.last(PageState::Closed).unwrap_or(0);
    pages.next(last)
}

// The key's cache entry is erased, or the cache emptied.
fn forget(storage: &mut Storage<'_, '_>, which: Which)
    ensures state { st_of storage.new ≡ forgetting (which_of which) (st_of storage.old) }
    ensures kept { KeepsImage storage.old storage.new }
{
    match which {
        Which::Every => storage.empty(),
        Which::Only(key) => storage.cache.forget(storage.slots.count, key),
    }
}

// A removal: the cache forgets first.
pub fn run_remove(storage: &mut Storage<'_, '_>, which: Which) -> Answer
    ensures { RunOk 0 (run_remove storage.old.flash.now.geo (which_of which)) storage.old storage.new result }
{
    forget(storage, which);
    let from = start(&storage.flash.pages());
    remove_pages(storage.flash, from, which);
    Answer::Done
}

// All pages are erased, and the cache is emptied.
pub fn erase_all(storage: &mut Storage<'_, '_>) -> Answer
    requires { storage.old.erased < 2 ^ 31 }
    ensures same_flash { storage.new.flash.ghost_name ≡ storage.old.flash.ghost_name }
    ensures same_image { storage.new.flash.now.img.ghost_name ≡ storage.old.flash.now.img.ghost_name }
    ensures run { RunOk storage.old.flash.now.geo.pages (erase_all storage.old.flash.now.geo) storage.old storage.new result }
{
    storage.empty();
    storage.flash.erase_all();
    storage.erased += storage.flash.geo.pages;
    Answer::Done
}

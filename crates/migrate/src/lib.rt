// Migration: the newest items of a page are copied to another, and the page is erased.
#![tactic(auto)]

ghost use Rattle.std.specs.Prelude.{◌≡◌, ◌⊎◌, ◌+◌, ◌-◌, ◌^◌, ◌≤◌, ◌<◌, length};
ghost use Rattle.rules.specs.Items.{read, size};
ghost use Rattle.rules.specs.Store.{migrate};
ghost use Rattle.items.specs.declared.{Read.TheVariants.Item};
ghost use Rattle.items.specs.Code.{part, read_of};
ghost use Rattle.fetch.specs.Code.{RunOk};
ghost use Rattle.migrate.specs.Code.{StepOk, copied, step_of, entry_at, Lies, AllOk, ended};

use fetch::storage::Storage;
use items::{Corrupt, Read, Spot};

// The item at `at` is noted at `to` and copied there, if all bytes that the copy takes are blank: the place after it.
fn copy_one(
    storage: &mut Storage<'_, '_>,
    key: u32,
    at: usize,
    len: usize,
    to: usize,
) -> Result<usize, Corrupt>
    requires { (len < 65536) × (at + size storage.old.flash.now.geo.word len ≤ length storage.old.flash.now.img.now)
        × (to + size storage.old.flash.now.geo.word len ≤ length storage.old.flash.now.img.now)
        × ((at + 8 + len ≤ to) ⊎ (to + size storage.old.flash.now.geo.word len ≤ at)) }
    ensures { StepOk (copied storage.old.flash.now.geo key at len to) to (size storage.old.flash.now.geo.word len)
        storage.old storage.new result }
{
    let span = words::size(storage.flash.geo.word, len);
    if !words::all_ff(&storage.flash.pages().img[to..to + span]) {
        return Err(Corrupt);
    }
    storage.note(key, to as u32);
    storage.flash.copy_item(at, len, to);
    Ok(to + span)
}

// The item at `at`, in an area that ends at e: copied to `to` if it is Present and its newest is at its own place. The
// next place to write.
fn migrate_one(
    storage: &mut Storage<'_, '_>,
    at: usize,
    e: usize,
    len: usize,
    to: usize,
) -> Result<usize, Corrupt>
    requires { (len < 65536) × Lies storage.old.flash.now.geo at e
        × (read_of (part storage.old.flash.now.img.now at e) (Item len)
        ≡ read storage.old.flash.now.geo.word (part storage.old.flash.now.img.now at e))
        × (at + size storage.old.flash.now.geo.word len ≤ e) × (e ≤ length storage.old.flash.now.img.now)
        × (to + size storage.old.flash.now.geo.word len ≤ length storage.old.flash.now.img.now)
        × ((to + size storage.old.flash.now.geo.word len ≤ at) ⊎ (e ≤ to)) }
    ensures { StepOk (step_of storage.old.flash.now.geo (entry_at storage.old.flash.now.img.now at e len) to) to
        (size storage.old.flash.now.geo.word len) storage.old storage.new result }
{
    let item = &storage.flash.pages().img[at..e];
    if !items::present(item, len) {
        return Ok(to);
    }
    let key = items::key(item, len);
    let Some(newest) = storage.fetch_own(key, Spot { at, len })? else {
        return Err(Corrupt);
    };
    if newest.at != at {
        return Ok(to);
    }
    copy_one(storage, key, at, len, to)
}

// The items from a place of the source to its end, in order. No iterator: the image is written between two readings,
// and each says where the next one stands.
fn migrate_all(storage: &mut Storage<'_, '_>, a: usize, e: usize, to: usize) -> Result<(), Corrupt>
    requires { Lies storage.old.flash.now.geo a e × (a ≤ e) × (e ≤ length storage.old.flash.now.img.now) × (to + (e - a) ≤ length storage.old.flash.now.img.now)
        × ((to + (e - a) ≤ a) ⊎ (e ≤ to)) }
    ensures { AllOk a e to storage.old storage.new result }
{
    let w = storage.flash.geo.word;
    let mut at = a;
    let mut next = to;
    while at < e {
        match items::look_at(storage.flash.pages().img, at, e, w) {
            Read::End => return Ok(()),
            Read::Skip => at += w,
            Read::Item(len) => {
                next = migrate_one(storage, at, e, len, next)?;
                at += words::size(w, len);
            }
        }
    }
    Ok(())
}

// The newest items of the source page go to the target page, and the source is erased.
pub fn migrate_items(
    storage: &mut Storage<'_, '_>,
    source: usize,
    target: usize,
) -> Result<(), Corrupt>
    requires { (source < storage.old.flash.now.geo.pages) × (target < storage.old.flash.now.geo.pages)
        × ((source < target) ⊎ (target < source)) × (storage.old.erased < 2 ^ 33) }
    ensures { RunOk 1 (migrate storage.old.flash.now.geo source target) storage.old storage.new (ended result) }
{
    let pages = storage.flash.pages();
    let a = pages.data_at(source);
    let e = pages.end_at(source);
    let to = pages.data_at(target);
    migrate_all(storage, a, e, to)?;
    storage.erase_page(source);
    Ok(())
}

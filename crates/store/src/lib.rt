// Store: rollover, one turn, at most n turns.
#![tactic(auto)]

ghost use Rattle.std.specs.Prelude.{◌+◌, ◌^◌, ◌≤◌, ◌<◌, length};
ghost use Rattle.rules.specs.Store.{rollover, turn, turns};
ghost use Rattle.fetch.specs.Code.{RunOk};
ghost use Rattle.migrate.specs.Code.{ended};
ghost use Rattle.store.specs.Code.{roll_of, fill_of};

use fetch::storage::Storage;
use items::Corrupt;
use rules::{Answer, PageState};

// Marks page q, and migrates the page after it if that is not Open.
pub fn rollover(storage: &mut Storage<'_, '_>, q: usize) -> Result<(), Corrupt>
    requires { (q < storage.old.flash.now.geo.pages) × (storage.old.erased < 2 ^ 33) }
    ensures { RunOk 1 (rollover storage.old.flash.now.geo q) storage.old storage.new (ended result) }
{
    storage.flash.mark_start(q);
    let pages = storage.flash.pages();
    let source = pages.next(q);
    if pages.page_is(source, PageState::Open) {
        return Ok(());
    }
    migrate::migrate_items(storage, source, q)
}

// Closes page p, and rolls over to the next one: the store must go on then.
fn close(storage: &mut Storage<'_, '_>, p: usize) -> Answer
    requires { (p < storage.old.flash.now.geo.pages) × (storage.old.erased < 2 ^ 33) }
    ensures { RunOk 1 (roll_of storage.old.flash.now.geo p) storage.old storage.new result }
{
    storage.flash.mark_end(p);
    let next = storage.flash.pages().next(p);
    match rollover(storage, next) {
        Ok(()) => Answer::FullStorage,
        Err(Corrupt) => Answer::Corrupted,
    }
}

// Writes in the free spot of the PartialOpen page p, or closes it and rolls over.
fn fill(storage: &mut Storage<'_, '_>, p: usize, key: u32, value: &[u8]) -> Answer
    requires { (p < storage.old.flash.now.geo.pages) × (length value.now ≤ 32768) × (storage.old.erased < 2 ^ 33) }
    ensures { RunOk 1 (fill_of storage.old.flash.now.geo p key value.now) storage.old storage.new result }
{
    let pages = storage.flash.pages();
    let at = pages.scan_end(p);
    let span = words::size(pages.geo.word, 4 + value.len());
    if pages.has_free_spot(p, at, span) {
        storage.note(key, at as u32);
        storage.flash.write_item(at, key, value);
        return Answer::Done;
    }
    close(storage, p)
}

// One turn of a store: Done where the item is written, FullStorage where the store must go on.
pub fn turn(storage: &mut Storage<'_, '_>, key: u32, value: &[u8]) -> Answer
    requires { (length value.now ≤ 32768) × (storage.old.erased < 2 ^ 33) }
    ensures { RunOk 1 (turn storage.old.flash.now.geo key value.now) storage.old storage.new result }
{
    let pages = storage.flash.pages();
    if let Some(p) = pages.first(PageState::PartialOpen) {
        if pages.page_is(pages.next(p), PageState::Open) {
            return fill(storage, p, key, value);
        }
        return Answer::Corrupted;
    }
    let Some(open) = pages.first(PageState::Open) else {
        return Answer::Corrupted;
    };
    storage.flash.mark_start(open);
    Answer::FullStorage
}

// At most n turns.
pub fn turns(storage: &mut Storage<'_, '_>, key: u32, value: &[u8]) -> Answer
    requires { (length value.now ≤ 32768) × (storage.old.erased < 2 ^ 32) }
    ensures { RunOk storage.old.flash.now.geo.pages (turns storage.old.flash.now.geo storage.old.flash.now.geo.pages key value.now)
        storage.old storage.new result }
{
    for _ in 0..storage.flash.geo.pages {
        match turn(storage, key, value) {
            Answer::FullStorage => {}
            answer => return answer,
        }
    }
    Answer::FullStorage
}

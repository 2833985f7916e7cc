// Repair, and runs that repair once.
#![tactic(auto)]

ghost use Rattle.std.specs.Prelude.{◌+◌, ◌^◌, ◌<◌};
ghost use Rattle.rules.specs.Store.{mend, repair};
ghost use Rattle.fetch.specs.Code.{RunOk};
ghost use Rattle.migrate.specs.Code.{ended};
ghost use Rattle.mend.specs.Code.{ErasedOk, redo_of, SettledOk};

use fetch::storage::Storage;
use items::Corrupt;
use rules::{Answer, PageState};

// Erases each corrupted page.
fn erase_corrupted(storage: &mut Storage<'_, '_>)
    requires { storage.old.erased < 2 ^ 32 }
    ensures { ErasedOk storage.old storage.new }
{
    for p in 0..storage.flash.geo.pages {
        if storage.flash.pages().page_is(p, PageState::Corrupted) {
            storage.erase_page(p);
        }
    }
}

// A migration that was cut: erases the PartialOpen page p, marks it, and migrates again.
fn redo(storage: &mut Storage<'_, '_>, p: usize) -> Result<(), Corrupt>
    requires { (p < storage.old.flash.now.geo.pages) × (storage.old.erased < 2 ^ 32) }
    ensures { RunOk 2 (redo_of storage.old.flash.now.geo p) storage.old storage.new (ended result) }
{
    storage.erase_page(p);
    storage.flash.mark_start(p);
    let source = storage.flash.pages().next(p);
    migrate::migrate_items(storage, source, p)
}

// Redoes the migration into the first PartialOpen page if the page after it is not Open.
fn mend(storage: &mut Storage<'_, '_>) -> Result<(), Corrupt>
    requires { storage.old.erased < 2 ^ 32 }
    ensures { RunOk 2 (mend storage.old.flash.now.geo) storage.old storage.new (ended result) }
{
    let pages = storage.flash.pages();
    let Some(p) = pages.first(PageState::PartialOpen) else {
        return Ok(());
    };
    if pages.page_is(pages.next(p), PageState::Open) {
        return Ok(());
    }
    redo(storage, p)
}

// Empties the cache, erases each corrupted page, and redoes a migration that was cut.
pub fn try_repair(storage: &mut Storage<'_, '_>) -> Result<(), Corrupt>
    requires { storage.old.erased < 2 ^ 31 }
    ensures { RunOk (storage.old.flash.now.geo.pages + 2) (repair storage.old.flash.now.geo) storage.old storage.new
        (ended result) }
{
    storage.empty();
    erase_corrupted(storage);
    mend(storage)
}

// No. 8 leaves the cache empty.
pub fn settle(storage: &mut Storage<'_, '_>, answer: Answer)
    ensures { SettledOk answer storage.old storage.new }
{
    if answer == Answer::Corrupted {
        storage.empty();
    }
}

// The calls behind their refusals: each looks at all page states, and repairs once where it must.
#![tactic(auto)]

ghost use Rattle.std.specs.Prelude.{◌≡◌, ◌+◌, ◌-◌, ◌^◌, ◌≤◌, ◌<◌, Ok, Some, IfOk, length};
ghost use Rattle.rules.specs.declared.{Answer.TheVariants.Value};
ghost use Rattle.rules.specs.Fetch.{run_fetch, plain_fetch};
ghost use Rattle.rules.specs.Walk.{run_start};
ghost use Rattle.rules.specs.Store.{looked, auto_repair};
ghost use Rattle.items.specs.Code.{told, SpotIn};
ghost use Rattle.cache.specs.Code.{pointers};
ghost use Rattle.fetch.specs.Code.{RunOk};
ghost use Rattle.mend.specs.Code.{again_of};
ghost use Rattle.calls.specs.Code.{told_answer, run_of, served_of, call_of};

use fetch::storage::Storage;
use items::{Corrupt, Spot};
use remove::Which;
use ring::Pages;
use rules::Answer;

// What a call runs behind its look at all page states. A store's value is lent beside it.
// An enum, and no closure: the contracts name a run by its job, and a job may run twice.
#[derive(Clone, Copy, PartialEq, Eq)]
pub enum Job {
    Fetch(u32),
    Store(u32),
    Remove(Which),
    Start,
}

// An item's value, as an answer: its place and length.
fn value_of(spot: Spot) -> Answer
    requires { SpotIn (2 ^ 32) (Some spot) }
    ensures { result ≡ Value (spot.at + 12) (spot.len - 4) }
{
    Answer::Value(spot.at + 12, spot.len - 4)
}

// What a search found, as an answer.
fn answer_of(found: Result<Option<Spot>, Corrupt>) -> Answer
    requires { IfOk found (SpotIn (2 ^ 32)) }
    ensures { result ≡ told_answer found }
{
    match found {
        Ok(Some(spot)) => value_of(spot),
        Ok(None) => Answer::None,
        Err(Corrupt) => Answer::Corrupted,
    }
}

// A fetch with the cache.
fn run_fetch(storage: &mut Storage<'_, '_>, key: u32) -> Answer
    ensures { RunOk 0 (run_fetch storage.old.flash.now.geo key) storage.old storage.new result }
{
    answer_of(storage.fetch(key))
}

// A walk's start needs a first page.
fn run_start(storage: &Storage<'_, '_>) -> Answer
    ensures { RunOk 0 (run_start storage.now.flash.now.geo) storage.now storage.now result }
{
    match walk::walk_first(&storage.flash.pages()) {
        Some(_) => Answer::Done,
        None => Answer::Corrupted,
    }
}

// A job's run.
fn run(storage: &mut Storage<'_, '_>, job: Job, value: &[u8]) -> Answer
    requires { (length value.now ≤ 32768) × (storage.old.erased < 2 ^ 31) }
    ensures { RunOk storage.old.flash.now.geo.pages (run_of storage.old.flash.now.geo job value.now)
        storage.old storage.new result }
{
    match job {
        Job::Fetch(key) => run_fetch(storage, key),
        Job::Store(key) => store::turns(storage, key, value),
        Job::Remove(which) => remove::run_remove(storage, which),
        Job::Start => run_start(storage),
    }
}

// The run after the look at all page states.
fn look_and_run(storage: &mut Storage<'_, '_>, job: Job, value: &[u8]) -> Answer
    requires { (length value.now ≤ 32768) × (storage.old.erased < 2 ^ 31) }
    ensures { RunOk storage.old.flash.now.geo.pages
        (looked storage.old.flash.now.geo (run_of storage.old.flash.now.geo job value.now)) storage.old storage.new result }
{
    if storage.flash.pages().any_corrupted() {
        return Answer::Corrupted;
    }
    run(storage, job, value)
}

// The repair, and the run after it.
fn again(storage: &mut Storage<'_, '_>, job: Job, value: &[u8]) -> Answer
    requires { (length value.now ≤ 32768) × (storage.old.erased < 2 ^ 30) }
    ensures { RunOk (storage.old.flash.now.geo.pages + 2 + storage.old.flash.now.geo.pages)
        (again_of storage.old.flash.now.geo (run_of storage.old.flash.now.geo job value.now)) storage.old storage.new result }
{
    if mend::try_repair(storage).is_err() {
        mend::settle(storage, Answer::Corrupted);
        return Answer::Corrupted;
    }
    let answer = look_and_run(storage, job, value);
    mend::settle(storage, answer);
    answer
}

// A job that repairs once on Corrupted and runs again.
fn auto_repair(storage: &mut Storage<'_, '_>, job: Job, value: &[u8]) -> Answer
    requires { (length value.now ≤ 32768) × (storage.old.erased < 2 ^ 20) }
    ensures { RunOk (storage.old.flash.now.geo.pages + (storage.old.flash.now.geo.pages + 2 + storage.old.flash.now.geo.pages))
        (auto_repair storage.old.flash.now.geo (run_of storage.old.flash.now.geo job value.now)) storage.old storage.new result }
{
    match look_and_run(storage, job, value) {
        Answer::Corrupted => again(storage, job, value),
        answer => answer,
    }
}

// What the cache alone finds: a fetch's key.
fn served_by(storage: &Storage<'_, '_>, job: Job) -> Option<Spot>
    ensures { (Ok result ≡ told (served_of storage.now.flash.now.geo job storage.now.flash.now.img.now
        (pointers storage.now.slots.count storage.now.cache))) × SpotIn (length storage.now.flash.now.img.now) result }
{
    let Job::Fetch(key) = job else {
        return None;
    };
    let place = storage.cache.find(storage.slots.count, key)?;
    search::hit(&storage.flash.pages(), key, place as usize)
}

// A call: a fetch that a cache hit serves answers at once, without a look at the page states.
pub fn call(storage: &mut Storage<'_, '_>, job: Job, value: &[u8]) -> Answer
    requires { (length value.now ≤ 32768) × (storage.old.erased < 2 ^ 20) }
    ensures same_flash { storage.new.flash.ghost_name ≡ storage.old.flash.ghost_name }
    ensures same_image { storage.new.flash.now.img.ghost_name ≡ storage.old.flash.now.img.ghost_name }
    ensures run { RunOk (storage.old.flash.now.geo.pages + (storage.old.flash.now.geo.pages + 2 + storage.old.flash.now.geo.pages))
        (call_of storage.old.flash.now.geo job value.now) storage.old storage.new result }
{
    match served_by(storage, job) {
        Some(spot) => value_of(spot),
        None => auto_repair(storage, job, value),
    }
}

// A plain read-only fetch: no cache, and Corrupted at once.
pub fn plain_fetch(pages: &Pages<'_>, key: u32) -> Answer
    ensures { result ≡ plain_fetch pages.now.geo pages.now.img.now key }
{
    if pages.any_corrupted() {
        return Answer::Corrupted;
    }
    answer_of(search::newest(pages, key))
}

// The public calls: any image, page size, cache, cursor, key and value; words of 4 bytes. The refusals come first.
// Image, page size, cache, size and power stand side by side in them, as C lends them.
#![tactic(auto)]

ghost use Rattle.std.specs.Prelude.{◌≡◌, length};
ghost use Rattle.rules.specs.Answers.{refusal};
ghost use Rattle.rules.specs.Fetch.{view};
ghost use Rattle.rules.specs.Calls.{called, fetch_item, store_item, remove_item, remove_all_items, erase_all_pages, fetch_all_items};
ghost use Rattle.calls.specs.Code.{call_of};
ghost use Rattle.map.specs.Code.{CutOk, RunCut, lent_of, told_of, PlainOk, started_of, first_cursor, HasFirst, StepOk, stepped_by};

use cache::Cache;
use calls::Job;
use fetch::storage::{Slots, Storage};
use remove::Which;
use ring::Pages;
use ring::flash::Flash;
use rules::{Answer, Cursor};

// What a call hands back beside the image.
#[derive(Clone, Copy)]
pub struct Told {
    pub answer: Answer,
    pub cache: Cache,
    pub erased: usize,
}

// What a walk's start hands back beside the image.
#[derive(Clone, Copy)]
pub struct Started {
    pub answer: Answer,
    pub cursor: Cursor,
    pub cache: Cache,
    pub erased: usize,
}

// What a walk's step answers, and the cursor after it.
#[derive(Clone, Copy)]
pub struct Stepped {
    pub answer: Answer,
    pub cursor: Cursor,
}

// Whether calls on these sizes are refused: Done, or the refusal that they answer. It can't fail, so it is no Result.
pub fn try_new(page: usize, image_len: usize, size: usize) -> Answer
    ensures { result ≡ refusal 4 page image_len size 0 }
{
    answer::refusal(4, page, image_len, size, 0)
}

// The len bytes at place, the empty start of the image where they do not lie in it.
pub fn view(img: &[u8], place: usize, len: usize) -> &[u8]
    ensures { result.now ≡ view img.now place len }
{
    if place <= img.len() {
        if len <= img.len() - place {
            return &img[place..place + len];
        }
    }
    &img[0..0]
}

// A job with a cache, behind its refusals.
fn behind(
    img: &mut [u8],
    page: usize,
    cache: Cache,
    size: usize,
    job: Job,
    value: &[u8],
    power: &mut usize,
) -> Told
    ensures { RunCut page size (length value.now) (lent_of img.old cache) (λ G s. call_of G job value.now s)
        power.old power.new (told_of img.new result) }
{
    let geo = match answer::try_geometry(4, page, img.len(), size, value.len()) {
        Ok(geo) => geo,
        Err(no) => {
            return Told {
                answer: no,
                cache,
                erased: 0,
            };
        }
    };
    let mut flash = Flash {
        img,
        geo,
        power: *power,
    };
    let mut storage = Storage {
        flash: &mut flash,
        cache,
        slots: Slots { count: size },
        erased: 0,
    };
    let answer = calls::call(&mut storage, job, value);
    let told = Told {
        answer,
        cache: storage.cache,
        erased: storage.erased,
    };
    *power = flash.power;
    told
}

// The newest value of a key; a damaged image is repaired once.
pub fn fetch_item(img: &mut [u8], page: usize, cache: Cache, size: usize, key: u32) -> Told
    ensures { told_of img.new result ≡ called 4 page size (fetch_item key) (lent_of img.old cache) }
{
    let mut power = words::ENDLESS;
    behind(img, page, cache, size, Job::Fetch(key), b"", &mut power)
}

// The newest value of a key, without a cache: a damaged image answers Corrupted, and nothing changes.
pub fn fetch_plain(img: &[u8], page: usize, key: u32) -> Answer
    ensures { PlainOk page key img.now result }
{
    match answer::try_geometry(4, page, img.len(), 0, 0) {
        Ok(geo) => calls::plain_fetch(&Pages { img, geo }, key),
        Err(no) => no,
    }
}

// A key gets a value.
pub fn store_item(
    img: &mut [u8],
    page: usize,
    cache: Cache,
    size: usize,
    key: u32,
    value: &[u8],
) -> Told
    ensures { told_of img.new result ≡ called 4 page size (store_item key value.now) (lent_of img.old cache) }
{
    let mut power = words::ENDLESS;
    store_item_cut(img, page, cache, size, key, value, &mut power)
}

// A store while the power lasts.
pub fn store_item_cut(
    img: &mut [u8],
    page: usize,
    cache: Cache,
    size: usize,
    key: u32,
    value: &[u8],
    power: &mut usize,
) -> Told
    ensures { CutOk page size (store_item key value.now) (lent_of img.old cache)
        power.old power.new (told_of img.new result) }
{
    behind(img, page, cache, size, Job::Store(key), value, power)
}

// A key is removed, with all its values.
pub fn remove_item(img: &mut [u8], page: usize, cache: Cache, size: usize, key: u32) -> Told
    ensures { told_of img.new result ≡ called 4 page size (remove_item key) (lent_of img.old cache) }
{
    let mut power = words::ENDLESS;
    remove_item_cut(img, page, cache, size, key, &mut power)
}

// A removal while the power lasts.
pub fn remove_item_cut(
    img: &mut [u8],
    page: usize,
    cache: Cache,
    size: usize,
    key: u32,
    power: &mut usize,
) -> Told
    ensures { CutOk page size (remove_item key) (lent_of img.old cache)
        power.old power.new (told_of img.new result) }
{
    let job = Job::Remove(Which::Only(key));
    behind(img, page, cache, size, job, b"", power)
}

// All keys are removed.
pub fn remove_all_items(img: &mut [u8], page: usize, cache: Cache, size: usize) -> Told
    ensures { told_of img.new result ≡ called 4 page size remove_all_items (lent_of img.old cache) }
{
    let mut power = words::ENDLESS;
    remove_all_items_cut(img, page, cache, size, &mut power)
}

// A removal of all keys while the power lasts.
pub fn remove_all_items_cut(
    img: &mut [u8],
    page: usize,
    cache: Cache,
    size: usize,
    power: &mut usize,
) -> Told
    ensures { CutOk page size remove_all_items (lent_of img.old cache)
        power.old power.new (told_of img.new result) }
{
    let job = Job::Remove(Which::Every);
    behind(img, page, cache, size, job, b"", power)
}

// All pages are erased.
pub fn erase_all(img: &mut [u8], page: usize, cache: Cache, size: usize) -> Told
    ensures { told_of img.new result ≡ called 4 page size erase_all_pages (lent_of img.old cache) }
{
    let mut power = words::ENDLESS;
    erase_all_cut(img, page, cache, size, &mut power)
}

// All pages are erased while the power lasts.
pub fn erase_all_cut(
    img: &mut [u8],
    page: usize,
    cache: Cache,
    size: usize,
    power: &mut usize,
) -> Told
    ensures { CutOk page size erase_all_pages (lent_of img.old cache)
        power.old power.new (told_of img.new result) }
{
    let geo = match answer::try_geometry(4, page, img.len(), size, 0) {
        Ok(geo) => geo,
        Err(no) => {
            return Told {
                answer: no,
                cache,
                erased: 0,
            };
        }
    };
    let mut flash = Flash {
        img,
        geo,
        power: *power,
    };
    let mut storage = Storage {
        flash: &mut flash,
        cache,
        slots: Slots { count: size },
        erased: 0,
    };
    let answer = remove::erase_all(&mut storage);
    let told = Told {
        answer,
        cache: storage.cache,
        erased: storage.erased,
    };
    *power = flash.power;
    told
}

// The cursor of a call that is no walk.
const NO_CURSOR: Cursor = Cursor {
    first: 0,
    page: 0,
    place: 0,
};

// The cursor of a walk's start with this answer: where it is done, at the data of the first page.
fn first_cursor(pages: &Pages<'_>, answer: Answer) -> Cursor
    requires { HasFirst pages.now.geo pages.now.img.now answer }
    ensures { result ≡ first_cursor pages.now.geo answer pages.now.img.now }
{
    if answer::number(answer) != 0 {
        return NO_CURSOR;
    }
    let Some(first) = walk::walk_first(pages) else {
        return NO_CURSOR;
    };
    Cursor {
        first,
        page: first,
        place: pages.data_at(first),
    }
}

// A walk over all items in order of age: its start, from which next_item goes on.
pub fn fetch_all_items(img: &mut [u8], page: usize, cache: Cache, size: usize) -> Started
    ensures { started_of img.new result ≡ called 4 page size fetch_all_items (lent_of img.old cache) }
{
    let geo = match answer::try_geometry(4, page, img.len(), size, 0) {
        Ok(geo) => geo,
        Err(no) => {
            return Started {
                answer: no,
                cursor: NO_CURSOR,
                cache,
                erased: 0,
            };
        }
    };
    let mut flash = Flash {
        img,
        geo,
        power: words::ENDLESS,
    };
    let mut storage = Storage {
        flash: &mut flash,
        cache,
        slots: Slots { count: size },
        erased: 0,
    };
    let answer = calls::call(&mut storage, Job::Start, b"");
    let cursor = first_cursor(&storage.flash.pages(), answer);
    Started {
        answer,
        cursor,
        cache: storage.cache,
        erased: storage.erased,
    }
}

// A step, handed back: the end keeps the cursor.
fn hand_step(step: Option<walk::Stepped>, cursor: Cursor) -> Stepped
    ensures { result ≡ stepped_by cursor step }
{
    match step {
        None => Stepped {
            answer: Answer::None,
            cursor,
        },
        Some(next) => Stepped {
            answer: Answer::Item(next.key, next.place, next.len),
            cursor: next.cursor,
        },
    }
}

// A walk's next item, from any cursor.
pub fn next_item(img: &[u8], page: usize, cursor: Cursor) -> Stepped
    ensures { StepOk page cursor img.now result }
{
    match answer::try_geometry(4, page, img.len(), 0, 0) {
        Ok(geo) => hand_step(walk::walk_step(&Pages { img, geo }, cursor), cursor),
        Err(no) => Stepped { answer: no, cursor },
    }
}

// The C border over the public calls: numbers and slices only, and the answer's number back.
#![tactic(auto)]

ghost use Rattle.std.specs.Prelude.{◌≡◌, ◌≤◌, ◌<◌, length, MatchOption, IfSome};
ghost use Rattle.rules.specs.Answers.{number};
ghost use Rattle.rules.specs.Cache.{lookup};
ghost use Rattle.rules.specs.Calls.{called, fetch_item, store_item, remove_item, remove_all_items, erase_all_pages};
ghost use Rattle.cache.specs.Code.{pointers};
ghost use Rattle.map.specs.Code.{CutOk, lent_of, told_of};
ghost use Rattle.capi.specs.Code.{Fits, WordsOk, CursorFits, entries_of, lent_cache, StillOk, cache_words, cursor_of, cursor_words, cursor_after, out_words, border, CutBorder, change_call, plain_border, start_border, step_border};

use cache::Cache;
use map::Told;
use ring::Pages;
use rules::{Answer, Cursor};

// What a call returns where a length is wrong: it is the number of no answer.
const WRONG_LENGTH: u32 = 255;

// The cache of 64 words, the keys and then the places.
fn cache_of(words: &[u32; 64]) -> Cache
    ensures { pointers 32 result ≡ entries_of words.now }
{
    match (words.first_chunk(), words.last_chunk()) {
        (Some(keys), Some(places)) => Cache {
            keys: *keys,
            places: *places,
        },
        _ => Cache::new(),
    }
}

// The cache back into its 64 words.
fn put_cache(words: &mut [u32; 64], cache: Cache)
    ensures { words.new ≡ cache_words (pointers 32 cache) }
{
    words[..32].copy_from_slice(&cache.keys);
    words[32..].copy_from_slice(&cache.places);
}

// An answer and its erase count in five words.
fn put_out(out: &mut [u32; 5], erased: usize, a: Answer)
    requires { Fits erased a }
    ensures { out.new ≡ out_words erased a }
{
    let s = answer::show(a);
    *out = [erased as u32, s.kind, s.place as u32, s.len as u32, s.key];
}

// The cursor of three words.
fn cursor_of(words: &[u32; 3]) -> Cursor
    ensures { (result ≡ cursor_of words.now) × CursorFits result }
{
    let [first, page, place] = *words;
    Cursor {
        first: first as usize,
        page: page as usize,
        place: place as usize,
    }
}

// The cursor after an answer, in its three words: written where the answer's number is 0.
fn keep_cursor(words: &mut [u32; 3], a: Answer, c: Cursor)
    requires { CursorFits c }
    ensures { words.new ≡ cursor_after words.old a c }
{
    if answer::number(a) == 0 {
        *words = [c.first as u32, c.page as u32, c.place as u32];
    }
}

// What a call told, in the words of its cache and out, and its number.
fn finish(cache: &mut [u32; 64], out: &mut [u32; 5], told: Told) -> u32
    requires { Fits told.erased told.answer }
    ensures { (result ≡ number told.answer) × (cache.new ≡ cache_words (pointers 32 told.cache)) × (out.new ≡ out_words told.erased told.answer) }
{
    put_cache(cache, told.cache);
    put_out(out, told.erased, told.answer);
    answer::number(told.answer)
}

// The newest value of a key, without a cache.
#[unsafe(no_mangle)]
pub extern "C" fn map_fetch_plain(img: &[u8], page: usize, key: u32, out: &mut [u32]) -> u32
    ensures { record { no = result; out = out.new } ≡ plain_border page key img.now out.old }
{
    let Some(out) = out.as_mut_array() else {
        return WRONG_LENGTH;
    };
    let a = map::fetch_plain(img, page, key);
    put_out(out, 0, a);
    answer::number(a)
}

// The place that the cache's words have for the key. No copy of the cache is made.
fn find_words(words: &[u32; 64], size: usize, key: u32) -> Option<u32>
    requires { size ≤ 32 }
    ensures { MatchOption result (lookup key (pointers size (lent_cache words.now)) ≡ 0)
        (λ p. (0 < p) × (p ≡ lookup key (pointers size (lent_cache words.now)))) }
{
    let places = &words[32..32 + size];
    let i = cache::index_of(&words[..size], places, key)?;
    Some(places[i])
}

// What a fetch answers by a refusal or from the place that the lent cache has for its key; None where it must search.
fn fetch_hit(img: &[u8], page: usize, words: &[u32; 64], size: usize, key: u32) -> Option<Answer>
    ensures { IfSome result (StillOk page size key img.now words.now) }
{
    let geo = match answer::try_geometry(4, page, img.len(), size, 0) {
        Ok(geo) => geo,
        Err(no) => return Some(no),
    };
    let place = find_words(words, size, key)?;
    let pages = Pages { img, geo };
    let spot = search::hit(&pages, key, place as usize)?;
    Some(Answer::Value(spot.at + 12, spot.len - 4))
}

// What a fetch answers where it changes nothing; None where it may change something.
fn fetch_still(img: &[u8], page: usize, words: &[u32; 64], size: usize, key: u32) -> Option<Answer>
    ensures { IfSome result (StillOk page size key img.now words.now) }
{
    if size == 0 {
        let a = map::fetch_plain(img, page, key);
        return if a == Answer::Corrupted {
            None
        } else {
            Some(a)
        };
    }
    fetch_hit(img, page, words, size, key)
}

// A fetch with a copy of the cache.
fn fetch_copied(
    img: &mut [u8],
    page: usize,
    cache: &mut [u32; 64],
    size: usize,
    key: u32,
    out: &mut [u32; 5],
) -> u32
    ensures { record { no = result; image = img.new; cache = cache.new; out = out.new } ≡ border page size (fetch_item key) img.old cache.old out.old }
{
    let told = map::fetch_item(img, page, cache_of(cache), size, key);
    finish(cache, out, told)
}

// The newest value of a key; a damaged image is repaired once.
#[unsafe(no_mangle)]
pub extern "C" fn map_fetch_item(
    img: &mut [u8],
    page: usize,
    cache: &mut [u32],
    size: usize,
    key: u32,
    out: &mut [u32],
) -> u32
    ensures { record { no = result; image = img.new; cache = cache.new; out = out.new } ≡ border page size (fetch_item key) img.old cache.old out.old }
{
    let Some(cache) = cache.as_mut_array() else {
        return WRONG_LENGTH;
    };
    let Some(out) = out.as_mut_array() else {
        return WRONG_LENGTH;
    };
    let Some(a) = fetch_still(img, page, cache, size, key) else {
        return fetch_copied(img, page, cache, size, key, out);
    };
    put_out(out, 0, a);
    answer::number(a)
}

// A call that changes the map, and that can be cut. An enum: a closure for each export would need its own contract.
#[derive(Clone, Copy)]
enum Change<'a> {
    Store(u32, &'a [u8]),
    Remove(u32),
    RemoveAll,
    EraseAll,
}

impl Change<'_> {
    // The change as a call.
    fn run(self, img: &mut [u8], page: usize, cache: Cache, size: usize) -> Told
        ensures { told_of img.new result ≡ called 4 page size (change_call self.entry) (lent_of img.old cache) }
    {
        match self {
            Change::Store(key, value) => map::store_item(img, page, cache, size, key, value),
            Change::Remove(key) => map::remove_item(img, page, cache, size, key),
            Change::RemoveAll => map::remove_all_items(img, page, cache, size),
            Change::EraseAll => map::erase_all(img, page, cache, size),
        }
    }

    // The same while the power lasts.
    fn run_cut(
        self,
        img: &mut [u8],
        page: usize,
        cache: Cache,
        size: usize,
        power: &mut usize,
    ) -> Told
        ensures { CutOk page size (change_call self.entry) (lent_of img.old cache)
            power.old power.new (told_of img.new result) }
    {
        match self {
            Change::Store(key, value) => map::store_item_cut(
                img, page, cache, size, key, value, power,
            ),
            Change::Remove(key) => map::remove_item_cut(img, page, cache, size, key, power),
            Change::RemoveAll => map::remove_all_items_cut(img, page, cache, size, power),
            Change::EraseAll => map::erase_all_cut(img, page, cache, size, power),
        }
    }
}

// A change at the border.
fn change_map(
    img: &mut [u8],
    page: usize,
    cache: &mut [u32],
    size: usize,
    job: Change<'_>,
    out: &mut [u32],
) -> u32
    ensures { record { no = result; image = img.new; cache = cache.new; out = out.new } ≡ border page size (change_call job.entry) img.old cache.old out.old }
{
    let Some(cache) = cache.as_mut_array() else {
        return WRONG_LENGTH;
    };
    let Some(out) = out.as_mut_array() else {
        return WRONG_LENGTH;
    };
    let told = job.run(img, page, cache_of(cache), size);
    finish(cache, out, told)
}

// A key gets a value.
#[unsafe(no_mangle)]
pub extern "C" fn map_store_item(
    img: &mut [u8],
    page: usize,
    cache: &mut [u32],
    size: usize,
    key: u32,
    value: &[u8],
    out: &mut [u32],
) -> u32
    ensures { record { no = result; image = img.new; cache = cache.new; out = out.new } ≡ border page size (store_item key value.now) img.old cache.old out.old }
{
    change_map(img, page, cache, size, Change::Store(key, value), out)
}

// A key is removed, with all its values.
#[unsafe(no_mangle)]
pub extern "C" fn map_remove_item(
    img: &mut [u8],
    page: usize,
    cache: &mut [u32],
    size: usize,
    key: u32,
    out: &mut [u32],
) -> u32
    ensures { record { no = result; image = img.new; cache = cache.new; out = out.new } ≡ border page size (remove_item key) img.old cache.old out.old }
{
    change_map(img, page, cache, size, Change::Remove(key), out)
}

// All keys are removed.
#[unsafe(no_mangle)]
pub extern "C" fn map_remove_all_items(
    img: &mut [u8],
    page: usize,
    cache: &mut [u32],
    size: usize,
    out: &mut [u32],
) -> u32
    ensures { record { no = result; image = img.new; cache = cache.new; out = out.new } ≡ border page size remove_all_items img.old cache.old out.old }
{
    change_map(img, page, cache, size, Change::RemoveAll, out)
}

// All pages are erased.
#[unsafe(no_mangle)]
pub extern "C" fn map_erase_all(
    img: &mut [u8],
    page: usize,
    cache: &mut [u32],
    size: usize,
    out: &mut [u32],
) -> u32
    ensures { record { no = result; image = img.new; cache = cache.new; out = out.new } ≡ border page size erase_all_pages img.old cache.old out.old }
{
    change_map(img, page, cache, size, Change::EraseAll, out)
}

// What a call told, if its numbers fit words; a call that was cut may tell any.
fn in_words(told: Told) -> Told
    ensures { WordsOk told result }
{
    let s = answer::show(told.answer);
    if told.erased < 4294967296 && s.place < 4294967296 && s.len < 4294967296 {
        return told;
    }
    Told {
        answer: Answer::Corrupted,
        erased: 0,
        ..told
    }
}

// A change at the border while the power lasts.
fn cut_map(
    img: &mut [u8],
    page: usize,
    cache: &mut [u32],
    size: usize,
    job: Change<'_>,
    power: &mut [usize],
    out: &mut [u32],
) -> u32
    ensures { CutBorder page size (change_call job.entry) img.old cache.old power.old out.old
        (record { no = result; image = img.new; cache = cache.new; power = power.new; out = out.new }) }
{
    let Some(cache) = cache.as_mut_array() else {
        return WRONG_LENGTH;
    };
    let Some(power) = power.as_mut_array::<1>() else {
        return WRONG_LENGTH;
    };
    let Some(out) = out.as_mut_array() else {
        return WRONG_LENGTH;
    };
    let told = job.run_cut(img, page, cache_of(cache), size, &mut power[0]);
    finish(cache, out, in_words(told))
}

// A store while the power lasts.
#[unsafe(no_mangle)]
pub extern "C" fn map_store_item_cut(
    img: &mut [u8],
    page: usize,
    cache: &mut [u32],
    size: usize,
    key: u32,
    value: &[u8],
    power: &mut [usize],
    out: &mut [u32],
) -> u32
    ensures { CutBorder page size (store_item key value.now) img.old cache.old power.old out.old
        (record { no = result; image = img.new; cache = cache.new; power = power.new; out = out.new }) }
{
    cut_map(
        img,
        page,
        cache,
        size,
        Change::Store(key, value),
        power,
        out,
    )
}

// A removal while the power lasts.
#[unsafe(no_mangle)]
pub extern "C" fn map_remove_item_cut(
    img: &mut [u8],
    page: usize,
    cache: &mut [u32],
    size: usize,
    key: u32,
    power: &mut [usize],
    out: &mut [u32],
) -> u32
    ensures { CutBorder page size (remove_item key) img.old cache.old power.old out.old
        (record { no = result; image = img.new; cache = cache.new; power = power.new; out = out.new }) }
{
    cut_map(img, page, cache, size, Change::Remove(key), power, out)
}

// A removal of all keys while the power lasts.
#[unsafe(no_mangle)]
pub extern "C" fn map_remove_all_items_cut(
    img: &mut [u8],
    page: usize,
    cache: &mut [u32],
    size: usize,
    power: &mut [usize],
    out: &mut [u32],
) -> u32
    ensures { CutBorder page size remove_all_items img.old cache.old power.old out.old
        (record { no = result; image = img.new; cache = cache.new; power = power.new; out = out.new }) }
{
    cut_map(img, page, cache, size, Change::RemoveAll, power, out)
}

// All pages are erased while the power lasts.
#[unsafe(no_mangle)]
pub extern "C" fn map_erase_all_cut(
    img: &mut [u8],
    page: usize,
    cache: &mut [u32],
    size: usize,
    power: &mut [usize],
    out: &mut [u32],
) -> u32
    ensures { CutBorder page size erase_all_pages img.old cache.old power.old out.old
        (record { no = result; image = img.new; cache = cache.new; power = power.new; out = out.new }) }
{
    cut_map(img, page, cache, size, Change::EraseAll, power, out)
}

// A walk over all items in order of age: its start.
#[unsafe(no_mangle)]
pub extern "C" fn map_walk_start(
    img: &mut [u8],
    page: usize,
    cache: &mut [u32],
    size: usize,
    cursor: &mut [u32],
    out: &mut [u32],
) -> u32
    ensures { record { no = result; image = img.new; cache = cache.new; cursor = cursor.new; out = out.new } ≡ start_border page size img.old cache.old cursor.old out.old }
{
    let Some(cache) = cache.as_mut_array() else {
        return WRONG_LENGTH;
    };
    let Some(cursor) = cursor.as_mut_array() else {
        return WRONG_LENGTH;
    };
    let Some(out) = out.as_mut_array() else {
        return WRONG_LENGTH;
    };
    let s = map::fetch_all_items(img, page, cache_of(cache), size);
    keep_cursor(cursor, s.answer, s.cursor);
    let told = Told {
        answer: s.answer,
        cache: s.cache,
        erased: s.erased,
    };
    finish(cache, out, told)
}

// A walk's next item, from any cursor.
#[unsafe(no_mangle)]
pub extern "C" fn map_walk_step(img: &[u8], page: usize, cursor: &mut [u32], out: &mut [u32]) -> u32
    ensures { record { no = result; cursor = cursor.new; out = out.new } ≡ step_border page img.now cursor.old out.old }
{
    let Some(cursor) = cursor.as_mut_array() else {
        return WRONG_LENGTH;
    };
    let Some(out) = out.as_mut_array() else {
        return WRONG_LENGTH;
    };
    let s = map::next_item(img, page, cursor_of(cursor));
    keep_cursor(cursor, s.answer, s.cursor);
    put_out(out, 0, s.answer);
    answer::number(s.answer)
}

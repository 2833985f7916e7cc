// Calls of a list made on the public calls, each held against what its line says.
ghost use Rattle.std.specs.Prelude.{◌≡◌, true};
ghost use Rattle.rules.specs.Calls.{called, store_item, remove_item, remove_all_items, erase_all_pages, fetch_all_items, next_item};
ghost use Rattle.answer.specs.Code.{shown_of};
ghost use Rattle.map.specs.Code.{lent_of, told_of};

use crate::digest;
use crate::value::Rule;
use cache::Cache;
use map::Told;
use rules::{Answer, Cursor};

// A run of a list: bytes of a page and of the image, entries of the cache, and what the next call is lent beside the
// image.
#[derive(Clone, Copy)]
pub struct Run {
    pub page: usize,
    pub len: usize,
    pub size: usize,
    pub cache: Cache,
    pub cursor: Cursor,
}

// What a line says of a call: the answer's number, the pages erased, the digests of image and cache.
#[derive(Clone, Copy)]
pub struct Says {
    pub no: u32,
    pub erased: usize,
    pub image: u64,
    pub cache: u64,
}

// What a line says that an answer shows: the key of an item, or 0, and the value.
#[derive(Clone, Copy)]
pub struct Seen {
    pub key: u32,
    pub len: usize,
    pub rule: Rule,
}

impl Seen {
    ghost use Rattle.lists.specs.Says.{shows};

    // Does the answer show on this image what the line says? Where that is nothing, it shows no value.
    fn is_shown(seen: Option<Seen>, img: &[u8], a: Answer) -> bool
        ensures { result ≡ shows seen img.now (shown_of a) }
    {
        let shown = answer::show(a);
        match seen {
            None => shown.kind == 0,
            Some(seen) => {
                shown.kind == 1
                    && shown.key == seen.key
                    && shown.len == seen.len
                    && seen
                        .rule
                        .is_followed(map::view(img, shown.place, shown.len))
            }
        }
    }
}

impl Says {
    ghost use Rattle.lists.specs.Says.{agrees};

    // Did the call answer and leave what the line says?
    fn agrees(self, img: &[u8], told: Told) -> bool
        ensures { result ≡ agrees self (told_of img.now told) }
    {
        answer::number(told.answer) == self.no
            && told.erased == self.erased
            && digest::of_bytes(img) == self.image
            && digest::of_cache(told.cache) == self.cache
    }
}

// Each call says whether it is as its line says.
impl Run {
    ghost use Rattle.lists.specs.Says.{SameSizes, left, judged, fetched, judged_step};

    // What a call that is no walk told, held against its line.
    fn settle(&mut self, img: &[u8], told: Told, says: Says) -> bool
        ensures judged { left img.now self.new result ≡ judged says true (told_of img.now told) }
        ensures sizes { SameSizes self.old self.new }
    {
        self.cache = told.cache;
        self.cursor = Cursor {
            first: 0,
            page: 0,
            place: 0,
        };
        says.agrees(img, told)
    }

    // A store.
    pub fn store(&mut self, img: &mut [u8], key: u32, value: &[u8], says: Says) -> bool
        ensures judged { left img.new self.new result
            ≡ judged says true
            (called 4 self.old.page self.old.size (store_item key value.now) (lent_of img.old self.old.cache)) }
        ensures sizes { SameSizes self.old self.new }
    {
        let told = map::store_item(img, self.page, self.cache, self.size, key, value);
        self.settle(img, told, says)
    }

    // A removal of one key.
    pub fn remove(&mut self, img: &mut [u8], key: u32, says: Says) -> bool
        ensures judged { left img.new self.new result
            ≡ judged says true (called 4 self.old.page self.old.size (remove_item key) (lent_of img.old self.old.cache)) }
        ensures sizes { SameSizes self.old self.new }
    {
        let told = map::remove_item(img, self.page, self.cache, self.size, key);
        self.settle(img, told, says)
    }

    // A removal of all keys.
    pub fn remove_all(&mut self, img: &mut [u8], says: Says) -> bool
        ensures judged { left img.new self.new result
            ≡ judged says true (called 4 self.old.page self.old.size remove_all_items (lent_of img.old self.old.cache)) }
        ensures sizes { SameSizes self.old self.new }
    {
        let told = map::remove_all_items(img, self.page, self.cache, self.size);
        self.settle(img, told, says)
    }

    // Erase all.
    pub fn erase_all(&mut self, img: &mut [u8], says: Says) -> bool
        ensures judged { left img.new self.new result
            ≡ judged says true (called 4 self.old.page self.old.size erase_all_pages (lent_of img.old self.old.cache)) }
        ensures sizes { SameSizes self.old self.new }
    {
        let told = map::erase_all(img, self.page, self.cache, self.size);
        self.settle(img, told, says)
    }

    // A fetch, and a plain fetch after it.
    pub fn fetch(&mut self, img: &mut [u8], key: u32, says: Says, seen: Option<Seen>) -> bool
        ensures judged { left img.new self.new result
            ≡ fetched self.old.page self.old.size key says seen (lent_of img.old self.old.cache) }
        ensures sizes { SameSizes self.old self.new }
    {
        let told = map::fetch_item(img, self.page, self.cache, self.size, key);
        let plain = map::fetch_plain(img, self.page, key);
        let shown = Seen::is_shown(seen, img, plain) && Seen::is_shown(seen, img, told.answer);
        let agreed = self.settle(img, told, says);
        shown && agreed
    }

    // A walk's start.
    pub fn walk(&mut self, img: &mut [u8], says: Says) -> bool
        ensures judged { left img.new self.new result
            ≡ judged says true (called 4 self.old.page self.old.size fetch_all_items (lent_of img.old self.old.cache)) }
        ensures sizes { SameSizes self.old self.new }
    {
        let started = map::fetch_all_items(img, self.page, self.cache, self.size);
        let told = Told {
            answer: started.answer,
            cache: started.cache,
            erased: started.erased,
        };
        let agreed = self.settle(img, told, says);
        self.cursor = started.cursor;
        agreed
    }

    // A walk's step: an item, or nothing at the end. The answer's number is 0.
    pub fn step(&mut self, img: &[u8], seen: Option<Seen>) -> bool
        ensures judged { left img.now self.new result
            ≡ judged_step seen
            (called 4 self.old.page self.old.size (next_item self.old.cursor) (lent_of img.now self.old.cache)) }
        ensures sizes { SameSizes self.old self.new }
    {
        let stepped = map::next_item(img, self.page, self.cursor);
        self.cursor = stepped.cursor;
        answer::number(stepped.answer) == 0 && Seen::is_shown(seen, img, stepped.answer)
    }
}

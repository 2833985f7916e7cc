// An image in memory, and what the map answers about it.
ghost use Rattle.std.specs.Iterator.{at_most};

use cache::Cache;
use inspect::Fault;
use rules::{Answer, Cursor};
use shell::file;
use shell::trouble::{Refusal, Trouble};
use std::rt::Files;

// How many bytes an image has at most.
pub const IMAGE_BYTES: u32 = 2097152;

/// The image of a file, and the size of its pages.
#[derive(Drop)]
pub struct Image<'a> {
    pub path: &'a [u8],
    pub page: usize,
    pub bytes: Vec<u8>,
}

// No cache: 32 empty entries, of which none is used.
fn no_cache() -> Cache {
    Cache {
        keys: [0; 32],
        places: [0; 32],
    }
}

// Nothing where the map did what it was asked, else why it refused.
fn accept(answer: Answer) -> Result<(), Trouble> {
    let refusal = match answer {
        Answer::Done | Answer::Value(..) | Answer::None | Answer::Item(..) => return Ok(()),
        Answer::EndRangeNotAtPageBoundary => Refusal::EndRangeNotAtPageBoundary,
        Answer::RangeTooSmall => Refusal::RangeTooSmall,
        Answer::PagesTooSmall => Refusal::PagesTooSmall,
        Answer::Geometry => Refusal::Geometry,
        Answer::CacheSize => Refusal::CacheSize,
        Answer::ItemTooBig => Refusal::ItemTooBig,
        Answer::FullStorage => Refusal::FullStorage,
        Answer::Corrupted => Refusal::Corrupted,
    };
    Err(Trouble::Refused(refusal))
}

/// Whether the map takes an image of this length, with pages of this size.
pub fn fits(page: usize, len: usize) -> Result<(), Trouble> {
    accept(map::try_new(page, len, 0))
}

// The page of a place; the number of pages, at an image's end.
fn page_of(place: usize, page: usize) -> usize {
    place.checked_div(page).unwrap_or(0)
}

impl<'a> Image<'a> {
    /// The image in the file at path.
    pub fn load<R: Files + AllocGlobal>(
        rt: &R,
        path: &'a [u8],
        page: u32,
    ) -> Result<Image<'a>, Trouble> {
        let bytes = file::load(rt, path, IMAGE_BYTES)?;
        Ok(Image {
            path,
            page: page as usize, // no From leads from u32 to usize
            bytes,
        })
    }

    /// Gives a key a value: how many pages were erased to make room.
    pub fn store(&mut self, key: u32, value: &[u8]) -> Result<usize, Trouble> {
        let told = map::store_item(&mut self.bytes, self.page, no_cache(), 0, key, value);
        accept(told.answer)?;
        Ok(told.erased)
    }

    /// Removes a key: how many pages were erased.
    pub fn remove(&mut self, key: u32) -> Result<usize, Trouble> {
        let told = map::remove_item(&mut self.bytes, self.page, no_cache(), 0, key);
        accept(told.answer)?;
        Ok(told.erased)
    }

    /// Erases all pages: how many.
    pub fn erase(&mut self) -> Result<usize, Trouble> {
        let told = map::erase_all(&mut self.bytes, self.page, no_cache(), 0);
        accept(told.answer)?;
        Ok(told.erased)
    }

    /// The newest value of a key, where the map holds it.
    pub fn fetch(&self, key: u32) -> Result<Option<&[u8]>, Trouble> {
        match map::fetch_plain(&self.bytes, self.page, key) {
            Answer::Value(place, len) => Ok(Some(map::view(&self.bytes, place, len))),
            Answer::Corrupted => Err(Trouble::Damaged),
            answer => {
                accept(answer)?;
                Ok(None)
            }
        }
    }

    /// How many pages it has.
    pub fn pages(&self) -> usize {
        page_of(self.bytes.len(), self.page)
    }

    /// Whether the map takes an image of this size.
    pub fn fits(&self) -> Result<(), Trouble> {
        fits(self.page, self.bytes.len())
    }

    /// The first reason why the image is not sound.
    pub fn fault(&self) -> Option<Fault> {
        inspect::first_fault(&self.bytes, self.page)
    }

    pub fn is_sound(&self) -> bool {
        self.fault().is_none()
    }

    /// Where a walk starts. The map would repair a damaged image here, so such an image is turned away first.
    pub fn start(&mut self) -> Result<Cursor, Trouble> {
        self.fetch(0)?;
        let started = map::fetch_all_items(&mut self.bytes, self.page, no_cache(), 0);
        accept(started.answer).map_err(|_| Trouble::Damaged)?;
        Ok(started.cursor)
    }

    /// All versions in ring order, from a walk's start.
    pub fn versions(&self, cursor: Cursor) -> Versions<'_> {
        Versions {
            bytes: &self.bytes,
            page: self.page,
            cursor,
            left: self.bytes.len(),
        }
    }
}

/// An item of an image: its key, and its value with its place and its page.
#[derive(Clone, Copy)]
pub struct Version<'a> {
    pub key: u32,
    pub page: usize,
    pub place: usize,
    pub value: &'a [u8],
}

/// A walk through an image. None has more items than its image has bytes.
#[derive(Clone, Copy)]
pub struct Versions<'a> {
    bytes: &'a [u8],
    page: usize,
    cursor: Cursor,
    left: usize,
}

impl Versions<'_> {
    /// Room for all items: each takes twelve bytes, and more with a value.
    pub fn room(&self) -> usize {
        self.bytes.len() / 12
    }
}

impl<'a> Iterator for Versions<'a> {
    type Item = Version<'a>;

    ghost remaining = { λ s. at_most s.left };

    fn next(&mut self) -> Option<Version<'a>> {
        self.left = self.left.checked_sub(1)?;
        let step = map::next_item(self.bytes, self.page, self.cursor);
        let Answer::Item(key, place, len) = step.answer else {
            return None;
        };
        self.cursor = step.cursor;
        Some(Version {
            key,
            page: page_of(place, self.page),
            place,
            value: map::view(self.bytes, place, len),
        })
    }
}

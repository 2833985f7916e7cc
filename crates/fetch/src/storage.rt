// The storage of a call, and the fetch inside a call.
ghost use Rattle.std.specs.Prelude.{◌≡◌, ◌+◌, ◌^◌, ◌≤◌, ◌<◌, Some, Ok, IfOk, length};

use cache::Cache;
use items::{Corrupt, Spot};
use ring::flash::Flash;

// How many entries of the cache a call uses.
#[derive(Clone, Copy, PartialEq, Eq)]
pub struct Slots {
    pub count: usize,
    pub ghost few: { count ≤ 32 },
}

// What a call works on: the flash lent to it, the cache, and how many pages it has erased.
#[derive(Drop)]
pub struct Storage<'a, 'b> {
    pub flash: &'a mut Flash<'b>,
    pub cache: Cache,
    pub slots: Slots,
    pub erased: usize,
}

impl Storage<'_, '_> {
    ghost use Rattle.rules.specs.Runs.{noting, cleared};
    ghost use Rattle.rules.specs.Fetch.{fetch_in, hit};
    ghost use Rattle.items.specs.Code.{told, SpotIn};
    ghost use Rattle.ring.specs.Flash.{Erased};
    ghost use Rattle.fetch.specs.Code.{st_of, KeepsImage, ErasesPage};

    // A place noted. It is a number of 32 bits: no image is longer.
    pub fn note(&mut self, key: u32, place: u32)
        ensures { (st_of self.new ≡ noting key place (st_of self.old)) × KeepsImage self.old self.new }
    {
        self.cache.note(self.slots.count, key, place);
    }

    // The cache emptied.
    pub fn empty(&mut self)
        ensures { (st_of self.new ≡ cleared (st_of self.old)) × KeepsImage self.old self.new }
    {
        self.cache.empty(self.slots.count);
    }

    // A page erased, and counted.
    pub fn erase_page(&mut self, p: usize)
        requires { (p < self.old.flash.now.geo.pages) × (self.old.erased < 2 ^ 33) }
        ensures { ErasesPage self.old self.new p }
    {
        self.flash.erase_page(p);
        self.erased += 1;
    }

    // The fetch inside a call.
    pub fn fetch(&mut self, key: u32) -> Result<Option<Spot>, Corrupt>
        ensures found { result ≡ told (fetch_in self.old.flash.now.geo key (st_of self.old)).res }
        ensures state { st_of self.new ≡ (fetch_in self.old.flash.now.geo key (st_of self.old)).st }
        ensures within { IfOk result (SpotIn (length self.old.flash.now.img.now)) }
        ensures kept { KeepsImage self.old self.new }
    {
        crate::fetch_in(&self.flash.pages(), &mut self.cache, self.slots, key)
    }

    // The same for a Present item with the key: where the cache has it at its own place, it needs no second look.
    pub fn fetch_own(&mut self, key: u32, own: Spot) -> Result<Option<Spot>, Corrupt>
        requires { Ok (Some own) ≡ told (hit self.old.flash.now.geo self.old.flash.now.img.now key own.at) }
        ensures found { result ≡ told (fetch_in self.old.flash.now.geo key (st_of self.old)).res }
        ensures state { st_of self.new ≡ (fetch_in self.old.flash.now.geo key (st_of self.old)).st }
        ensures kept { KeepsImage self.old self.new }
    {
        match self.cache.find(self.slots.count, key) {
            Some(place) if place as usize == own.at => Ok(Some(own)),
            cached => crate::fetch_at(
                &self.flash.pages(),
                &mut self.cache,
                self.slots,
                key,
                cached,
            ),
        }
    }
}

// The flash of a call: the image lent, whose every change is made here, in words of the two primitives.
ghost use Rattle.std.specs.Prelude.{◌≡◌, ◌⊎◌, ◌++◌, ◌+◌, ◌≤◌, ◌<◌, length, take, drop};
ghost use Rattle.rules.specs.Held.{Held};
ghost use Rattle.ring.specs.Erased.{ErasedAll};

use crate::{Pages, base};
use rules::Geo;

// The image, its geometry and the power left.
#[derive(Drop)]
pub struct Flash<'a> {
    pub img: &'a mut [u8],
    pub geo: Geo,
    pub power: usize,
    pub ghost held: { Held geo (length img.now) },
}

// Erases all pages of an image, from page 0 upwards. Image and power are parameters here: in a struct each page would read
// them anew, since the compiler can't tell its fields from the bytes that are erased.
fn erase_each(img: &mut [u8], geo: Geo, power: &mut usize)
    requires { Held geo (length img.old) }
    ensures { ErasedAll geo img.old power.old img.new power.new }
{
    let mut left = *power;
    for p in 0..geo.pages {
        let at = base(geo, p, img.len());
        words::erase(img, at, geo.page, &mut left);
    }
    *power = left;
}

impl Flash<'_> {
    ghost use Rattle.rules.specs.Pages.{start_at, end_at, zero_word};
    ghost use Rattle.rules.specs.Items.{size, pad, encode};
    ghost use Rattle.ring.specs.Flash.{IsSame, Programmed, Erased};

    // The image as it is now.
    pub fn pages(&self) -> Pages<'_>
        ensures { (result.img.now ≡ self.now.img.now) × (result.geo ≡ self.now.geo) }
    {
        Pages {
            img: self.img,
            geo: self.geo,
        }
    }

    // Programs bytes at a place.
    pub fn program(&mut self, at: usize, b: &[u8])
        requires { at + length b.now ≤ length self.old.img.now }
        ensures { Programmed self.old self.new at b.now }
    {
        words::program(self.img, at, b, &mut self.power);
    }

    // Programs zeros over a word.
    fn mark(&mut self, at: usize)
        requires { at + self.old.geo.word ≤ length self.old.img.now }
        ensures { Programmed self.old self.new at (zero_word self.old.geo) }
    {
        let zeros = [0u8; 8];
        self.program(at, &zeros[..self.geo.word]);
    }

    // Marks the start of page p.
    pub fn mark_start(&mut self, p: usize)
        requires { p < self.old.geo.pages }
        ensures { Programmed self.old self.new (start_at self.old.geo p) (zero_word self.old.geo) }
    {
        self.mark(self.pages().base(p));
    }

    // Marks its end.
    pub fn mark_end(&mut self, p: usize)
        requires { p < self.old.geo.pages }
        ensures { Programmed self.old self.new (end_at self.old.geo p) (zero_word self.old.geo) }
    {
        self.mark(self.pages().end_at(p));
    }

    // Erases page p.
    pub fn erase_page(&mut self, p: usize)
        requires { p < self.old.geo.pages }
        ensures { Erased self.old self.new p }
    {
        let at = self.pages().base(p);
        words::erase(self.img, at, self.geo.page, &mut self.power);
    }

    // Erases all pages.
    pub fn erase_all(&mut self)
        ensures same { IsSame self.old self.new }
        ensures erased { ErasedAll self.old.geo self.old.img.now self.old.power self.new.img.now self.new.power }
    {
        erase_each(self.img, self.geo, &mut self.power);
    }

    // Programs a new item.
    pub fn write_item(&mut self, at: usize, key: u32, value: &[u8])
        requires { (length value.now ≤ 32768)
            × (at + size self.old.geo.word (4 + length value.now) ≤ length self.old.img.now) }
        ensures { Programmed self.old self.new at (encode self.old.geo.word key value.now) }
    {
        write::write_item(self.img, at, self.geo.word, key, value, &mut self.power);
    }

    // Programs a copy of the item of data length len: header and data as they stand, padding 0xFF.
    pub fn copy_item(&mut self, source: usize, len: usize, target: usize)
        requires { (len < 65536) × (source + 8 + len ≤ length self.old.img.now)
            × (target + size self.old.geo.word len ≤ length self.old.img.now)
            × ((source + 8 + len ≤ target) ⊎ (target + size self.old.geo.word len ≤ source)) }
        ensures { Programmed self.old self.new target
            (take (8 + len) (drop source self.old.img.now) ++ pad self.old.geo.word len) }
    {
        write::copy_item(
            self.img,
            source,
            len,
            target,
            self.geo.word,
            &mut self.power,
        );
    }
}

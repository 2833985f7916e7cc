// The ring: where pages stand, their states and what a page holds; in flash.rt what is programmed and erased.
#![tactic(auto)]

ghost use Rattle.std.specs.Prelude.{◌≡◌, ◌+◌, ◌-◌, ◌*◌, ◌≤◌, ◌<◌, Ok, MatchOption, length, take, drop};
ghost use Rattle.rules.specs.declared.{PageState.TheVariants.Corrupted};
ghost use Rattle.rules.specs.Held.{Held};
ghost use Rattle.rules.specs.Pages.{state_of, same, data_at, end_at, marked, state, scan_of, items_of, has_free_spot, next, prev, first_page, last_page, any_corrupted};
ghost use Rattle.rules.specs.Fetch.{last_with};
ghost use Rattle.items.specs.Code.{told, SpotIn};

pub mod flash;

use items::Spot;
use rules::{Geo, PageState};

// A lent image, read page by page.
#[derive(Clone, Copy)]
pub struct Pages<'a> {
    pub img: &'a [u8],
    pub geo: Geo,
    pub ghost held: { Held geo (length img.now) },
}

// The state that the two marks say.
fn state_of(start: bool, end: bool) -> PageState
    ensures { result ≡ state_of start end }
{
    match (start, end) {
        (false, false) => PageState::Open,
        (true, false) => PageState::PartialOpen,
        (true, true) => PageState::Closed,
        (false, true) => PageState::Corrupted,
    }
}

// Where page p of an image of this length starts: its geometry is enough, and the image need not be lent.
pub fn base(geo: Geo, p: usize, len: usize) -> usize
    requires { Held geo len × (p < geo.pages) }
    ensures { (result ≡ p * geo.page) × (result + geo.page ≤ len) }
{
    p * geo.page
}

impl Pages<'_> {
    // Where page p starts.
    pub fn base(&self, p: usize) -> usize
        requires { p < self.now.geo.pages }
        ensures { (result ≡ p * self.now.geo.page) × (result + self.now.geo.page ≤ length self.now.img.now) }
    {
        base(self.geo, p, self.img.len())
    }

    // Where its data area starts.
    pub fn data_at(&self, p: usize) -> usize
        requires { p < self.now.geo.pages }
        ensures { (result ≡ data_at self.now.geo p) × (result + (self.now.geo.page - self.now.geo.word) ≤ length self.now.img.now) }
    {
        self.base(p) + self.geo.word
    }

    // Where its end word starts, and its data area ends.
    pub fn end_at(&self, p: usize) -> usize
        requires { p < self.now.geo.pages }
        ensures { (result ≡ end_at self.now.geo p) × (result + self.now.geo.word ≤ length self.now.img.now) }
    {
        self.base(p) + (self.geo.page - self.geo.word)
    }

    // Is the word at a place marked? Half of its bits are zero then.
    fn marked(&self, at: usize) -> bool
        requires { at + self.now.geo.word ≤ length self.now.img.now }
        ensures { result ≡ marked self.now.geo (take self.now.geo.word (drop at self.now.img.now)) }
    {
        let half = (4 * self.geo.word) as u32;
        half <= words::zeros(&self.img[at..at + self.geo.word])
    }

    // The state of page p.
    pub fn state(&self, p: usize) -> PageState
        requires { p < self.now.geo.pages }
        ensures { result ≡ state self.now.geo self.now.img.now p }
    {
        state_of(self.marked(self.base(p)), self.marked(self.end_at(p)))
    }

    // Is page p in this state?
    pub fn page_is(&self, p: usize, want: PageState) -> bool
        requires { p < self.now.geo.pages }
        ensures { result ≡ same want (state self.now.geo self.now.img.now p) }
    {
        self.state(p) == want
    }

    // The first page in a state.
    pub fn first(&self, want: PageState) -> Option<usize>
        ensures { MatchOption result (first_page self.now.geo want self.now.img.now ≡ self.now.geo.pages)
            (λ p. (p < self.now.geo.pages) × (p ≡ first_page self.now.geo want self.now.img.now)) }
    {
        for p in 0..self.geo.pages {
            if self.page_is(p, want) {
                return Some(p);
            }
        }
        None
    }

    // The last page in a state.
    pub fn last(&self, want: PageState) -> Option<usize>
        ensures { MatchOption result (last_page self.now.geo want self.now.img.now ≡ self.now.geo.pages)
            (λ p. (p < self.now.geo.pages) × (p ≡ last_page self.now.geo want self.now.img.now)) }
    {
        for p in (0..self.geo.pages).rev() {
            if self.page_is(p, want) {
                return Some(p);
            }
        }
        None
    }

    // Is page p corrupted? Its start is read only where its end is marked.
    fn is_corrupted(&self, p: usize) -> bool
        requires { p < self.now.geo.pages }
        ensures { result ≡ same Corrupted (state self.now.geo self.now.img.now p) }
    {
        self.marked(self.end_at(p)) && !self.marked(self.base(p))
    }

    // Is a page corrupted?
    pub fn any_corrupted(&self) -> bool
        ensures { result ≡ any_corrupted self.now.geo self.now.img.now }
    {
        for p in 0..self.geo.pages {
            if self.is_corrupted(p) {
                return true;
            }
        }
        false
    }

    // The next page around the ring.
    pub fn next(&self, p: usize) -> usize
        requires { p < self.now.geo.pages }
        ensures { (result ≡ next self.now.geo p) × (result < self.now.geo.pages) }
    {
        if p + 1 == self.geo.pages {
            return 0;
        }
        p + 1
    }

    // The previous page around the ring.
    pub fn prev(&self, p: usize) -> usize
        requires { p < self.now.geo.pages }
        ensures { (result ≡ prev self.now.geo p) × (result < self.now.geo.pages) }
    {
        if p == 0 {
            return self.geo.pages - 1;
        }
        p - 1
    }

    // The last Present item with the key in page p.
    pub fn last_item(&self, p: usize, key: u32) -> Option<Spot>
        requires { p < self.now.geo.pages }
        ensures { (Ok result ≡ told (last_with key (items_of self.now.geo self.now.img.now p)))
            × SpotIn (length self.now.img.now) result }
    {
        items::last_in(
            self.img,
            self.data_at(p),
            self.end_at(p),
            self.geo.word,
            key,
        )
    }

    // Where the scan of page p ends.
    pub fn scan_end(&self, p: usize) -> usize
        requires { p < self.now.geo.pages }
        ensures { (result ≡ (scan_of self.now.geo self.now.img.now p).end)
            × (data_at self.now.geo p ≤ result) × (result ≤ end_at self.now.geo p) }
    {
        items::end_in(self.img, self.data_at(p), self.end_at(p), self.geo.word)
    }

    // Is at, where the scan of page p ends, a free spot for m bytes?
    pub fn has_free_spot(&self, p: usize, at: usize, m: usize) -> bool
        requires { (p < self.now.geo.pages) × (at ≡ (scan_of self.now.geo self.now.img.now p).end) × (at ≤ end_at self.now.geo p) }
        ensures { result ≡ has_free_spot self.now.geo self.now.img.now p m }
    {
        items::free(self.img, at, self.end_at(p), m)
    }
}

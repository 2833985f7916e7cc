// What a tool asks of an image: the first reason why it is not sound, and what the bytes of a page hold.
#![tactic(auto)]

ghost use Rattle.std.specs.Prelude.{◌≡◌, ◌+◌, ◌^◌, ◌≤◌, ◌<◌, Some, None, true, false, MatchOption, length};
ghost use Rattle.rules.specs.Bytes.{pick, all_ff};
ghost use Rattle.rules.specs.Pages.{data_at, end_at, state, scan_of};
ghost use Rattle.items.specs.Code.{part, scan_in};
ghost use Rattle.inspect.specs.Faults.{not_ff, second_partial, open_apart, dirty, dirty_fault, data_fault, tail_fault, blank_fault, used_fault, page_fault, first_fault};
ghost use Rattle.inspect.specs.Tallies.{empty, tally_by, tally_of};

use items::Read;
use ring::Pages;
use rules::{Answer, Kind, PageState};

// A reason why an image is not sound. The first that holds is told, in this order.
#[derive(Clone, Copy, PartialEq, Eq)]
pub enum Fault {
    Refused(Answer), // the sizes are refused with this answer
    CorruptedPage(usize), // the first page whose end word alone is marked
    NoPartialOpen(usize), // no page is PartialOpen, and this page, the first such one, is Closed
    SecondPartialOpen(usize), // the first page after the first PartialOpen one, by number, that is PartialOpen too
    NextNotOpen(usize), // the page after the PartialOpen one is not Open
    OpenApart(usize), // the first Open page after a Closed one, in the ring from the PartialOpen page on
    DataNotBlank(usize, usize), // page and place: the first byte of an Open page's data that is not 0xFF
    TailNotBlank(usize, usize), // page and place: the first byte after the PartialOpen page's scan that is not 0xFF
}

// The bytes of a page's data area: those of Present items, of Removed ones, of Damaged ones and skipped words,
// and those after the scan's end.
#[derive(Clone, Copy, PartialEq, Eq)]
pub struct Tally {
    pub state: PageState,
    pub present: usize,
    pub removed: usize,
    pub damaged: usize,
    pub free: usize,
}

// The first place from a up to e whose byte is not 0xFF. Blank bytes are looked at eight together.
fn first_not_ff(img: &[u8], a: usize, e: usize) -> Option<usize>
    requires { (a ≤ e) × (e ≤ length img.now) }
    ensures { MatchOption result (all_ff (part img.now a e) ≡ true)
        (λ at. (all_ff (part img.now a e) ≡ false) × (at ≡ not_ff a (part img.now a e))) }
{
    if words::all_ff(&img[a..e]) {
        return None;
    }
    let passed = img[a..e].iter().position(|&byte| byte != 255)?;
    Some(a + passed)
}

// The first PartialOpen page after page p, by number.
fn second_partial(pages: &Pages<'_>, p: usize) -> Option<usize>
    requires { p < pages.now.geo.pages }
    ensures { MatchOption result (second_partial pages.now.geo pages.now.img.now p ≡ pages.now.geo.pages)
        (λ q. (q < pages.now.geo.pages) × (q ≡ second_partial pages.now.geo pages.now.img.now p)) }
{
    for q in p + 1..pages.geo.pages {
        if pages.page_is(q, PageState::PartialOpen) {
            return Some(q);
        }
    }
    None
}

// The first Open page after a Closed one, in the ring from page p on.
fn first_open_apart(pages: &Pages<'_>, p: usize) -> Option<usize>
    requires { p < pages.now.geo.pages }
    ensures { MatchOption result (open_apart pages.now.geo pages.now.img.now p ≡ pages.now.geo.pages)
        (λ q. (q < pages.now.geo.pages) × (q ≡ open_apart pages.now.geo pages.now.img.now p)) }
{
    let mut q = p;
    let mut closed = false;
    for _ in 0..pages.geo.pages {
        let state = pages.state(q);
        if closed && state == PageState::Open {
            return Some(q);
        }
        closed |= state == PageState::Closed;
        q = pages.next(q);
    }
    None
}

// The fault of page q where it is Open and a byte of its data is not 0xFF.
fn dirty_fault(pages: &Pages<'_>, q: usize) -> Option<Fault>
    requires { q < pages.now.geo.pages }
    ensures { let G = pages.now.geo in
        result ≡ pick (dirty G pages.now.img.now q) (Some (dirty_fault G pages.now.img.now q)) None }
{
    if !pages.page_is(q, PageState::Open) {
        return None;
    }
    let place = first_not_ff(pages.img, pages.data_at(q), pages.end_at(q))?;
    Some(Fault::DataNotBlank(q, place))
}

// The first such fault.
fn data_fault(pages: &Pages<'_>) -> Option<Fault>
    ensures { result ≡ data_fault pages.now.geo pages.now.img.now None }
{
    for q in 0..pages.geo.pages {
        if let Some(fault) = dirty_fault(pages, q) {
            return Some(fault);
        }
    }
    None
}

// The fault after the scan's end of page p.
fn tail_fault(pages: &Pages<'_>, p: usize) -> Option<Fault>
    requires { p < pages.now.geo.pages }
    ensures { result ≡ tail_fault pages.now.geo pages.now.img.now p }
{
    let place = first_not_ff(pages.img, pages.scan_end(p), pages.end_at(p))?;
    Some(Fault::TailNotBlank(p, place))
}

// The first fault of an image with no PartialOpen page.
#[tactic(auto, unfolding(crate::specs::Faults::blank_fault))]
fn blank_fault(pages: &Pages<'_>) -> Option<Fault>
    ensures { result ≡ blank_fault pages.now.geo pages.now.img.now }
{
    if let Some(closed) = pages.first(PageState::Closed) {
        return Some(Fault::NoPartialOpen(closed));
    }
    data_fault(pages)
}

// The first fault of an image whose first PartialOpen page is p.
#[tactic(auto, unfolding(crate::specs::Faults::used_fault))]
fn used_fault(pages: &Pages<'_>, p: usize) -> Option<Fault>
    requires { p < pages.now.geo.pages }
    ensures { result ≡ used_fault pages.now.geo pages.now.img.now p }
{
    if let Some(second) = second_partial(pages, p) {
        return Some(Fault::SecondPartialOpen(second));
    }
    let next = pages.next(p);
    if !pages.page_is(next, PageState::Open) {
        return Some(Fault::NextNotOpen(next));
    }
    if let Some(open) = first_open_apart(pages, p) {
        return Some(Fault::OpenApart(open));
    }
    if let Some(fault) = data_fault(pages) {
        return Some(fault);
    }
    tail_fault(pages, p)
}

// The first fault of an image whose sizes are accepted.
#[tactic(auto, unfolding(crate::specs::Faults::page_fault))]
fn page_fault(pages: &Pages<'_>) -> Option<Fault>
    ensures { result ≡ page_fault pages.now.geo pages.now.img.now }
{
    if let Some(corrupted) = pages.first(PageState::Corrupted) {
        return Some(Fault::CorruptedPage(corrupted));
    }
    match pages.first(PageState::PartialOpen) {
        Some(p) => used_fault(pages, p),
        None => blank_fault(pages),
    }
}

// The first fault of an image, for any sizes; a sound one has none.
#[tactic(auto, unfolding(crate::specs::Faults::first_fault))]
pub fn first_fault(img: &[u8], page_size: usize) -> Option<Fault>
    ensures { result ≡ first_fault 4 page_size img.now }
{
    match answer::try_geometry(4, page_size, img.len(), 0, 0) {
        Ok(geo) => page_fault(&Pages { img, geo }),
        Err(refusal) => Some(Fault::Refused(refusal)),
    }
}

impl Tally {
    ghost use Rattle.inspect.specs.Tallies.{more};

    // No bytes of a page in this state.
    fn new(state: PageState) -> Tally
        ensures { result ≡ empty state }
    {
        Tally {
            state,
            present: 0,
            removed: 0,
            damaged: 0,
            free: 0,
        }
    }

    // Counts n more bytes of this kind.
    fn add(&mut self, kind: Kind, n: usize)
        requires { self.old.present + self.old.removed + self.old.damaged + n < 2 ^ 64 }
        ensures { self.new ≡ more self.old kind n }
    {
        match kind {
            Kind::Present => self.present += n,
            Kind::Removed => self.removed += n,
            Kind::Damaged => self.damaged += n,
        }
    }
}

// The tally of the data area from a up to e, in a page of this state: each reading says where the next one stands.
fn tally_in(img: &[u8], a: usize, e: usize, w: usize, state: PageState) -> Tally
    requires { (a ≤ e) × (e ≤ length img.now) × (4 ≤ w) × (w ≤ 8) }
    ensures { result ≡ tally_by w state a e (scan_in w img.now a e) }
{
    let mut at = a;
    let mut tally = Tally::new(state);
    while at < e {
        match items::look_at(img, at, e, w) {
            Read::End => break,
            Read::Skip => {
                tally.add(Kind::Damaged, w);
                at += w;
            }
            Read::Item(len) => {
                let n = words::size(w, len);
                tally.add(items::kind(&img[at..e], len), n);
                at += n;
            }
        }
    }
    tally.free = e - at;
    tally
}

// The tally of page p.
#[tactic(auto, using(ring::proofs::Laws::scan_is))]
fn tally_at(pages: &Pages<'_>, p: usize) -> Tally
    requires { p < pages.now.geo.pages }
    ensures { let G = pages.now.geo in
        let img = pages.now.img.now in
        result ≡ tally_by G.word (state G img p) (data_at G p) (end_at G p) (scan_of G img p) }
{
    let start = pages.data_at(p);
    let end = pages.end_at(p);
    tally_in(pages.img, start, end, pages.geo.word, pages.state(p))
}

// The tally of page p, for any sizes. No Option, since the call can't fail:
// where the sizes are refused, or there is no page p, the tally is Open and zeros.
#[tactic(auto, unfolding(crate::specs::Tallies::tally_of))]
pub fn tally_page(img: &[u8], page_size: usize, p: usize) -> Tally
    ensures { result ≡ tally_of 4 page_size img.now p }
{
    match answer::try_geometry(4, page_size, img.len(), 0, 0) {
        Ok(geo) if p < geo.pages => tally_at(&Pages { img, geo }, p),
        _ => Tally::new(PageState::Open),
    }
}

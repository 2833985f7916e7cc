// The answers' numbers and what they show, and the refusals that come before a call.
#![tactic(auto)]

ghost use Rattle.std.specs.Prelude.{◌≡◌, ◌≤◌, ◌<◌, ◌%◌, IfOk, OnOk};
ghost use Rattle.rules.specs.Answers.{number, refusal};
ghost use Rattle.rules.specs.Calls.{geo_of};
ghost use Rattle.rules.specs.Held.{Held};
ghost use Rattle.answer.specs.Code.{shown_of, GeometryOk};

use rules::{Answer, Geo};

// What an answer shows: its kind (0 nothing, 1 a value or an item), place, length and key.
// The kind is a number and what is not shown is 0: C and the lists of calls read these as words.
#[derive(Clone, Copy)]
pub struct Shown {
    pub kind: u32,
    pub place: usize,
    pub len: usize,
    pub key: u32,
}

// The answer's number in the table of answers.
pub fn number(a: Answer) -> u32
    ensures { result ≡ number a }
{
    match a {
        Answer::Done | Answer::Value(..) | Answer::None | Answer::Item(..) => 0,
        Answer::EndRangeNotAtPageBoundary => 1,
        Answer::RangeTooSmall => 2,
        Answer::PagesTooSmall => 3,
        Answer::Geometry => 4,
        Answer::CacheSize => 5,
        Answer::ItemTooBig => 6,
        Answer::FullStorage => 7,
        Answer::Corrupted => 8,
    }
}

// What an answer shows.
pub fn show(a: Answer) -> Shown
    ensures { result ≡ shown_of a }
{
    let (kind, key, place, len) = match a {
        Answer::Value(place, len) => (1, 0, place, len),
        Answer::Item(key, place, len) => (1, key, place, len),
        _ => (0, 0, 0, 0),
    };
    Shown {
        kind,
        place,
        len,
        key,
    }
}

// The geometry of an image.
pub fn geometry(word: usize, page: usize, image_len: usize) -> Geo
    requires { 0 < page }
    ensures { result ≡ geo_of word page image_len }
{
    Geo {
        word,
        page,
        pages: image_len / page,
    }
}

// The geometry that the sizes give, or the first refusal that is due. A call without a cache or a value has 0 there.
#[tactic(auto, using(crate::proofs::Ladder::turned), unfolding(rules::specs::Answers::refusal))]
pub fn try_geometry(
    word: usize,
    page: usize,
    image_len: usize,
    size: usize,
    value_len: usize,
) -> Result<Geo, Answer>
    requires { (4 ≤ word) × (word ≤ 8) }
    ensures is { GeometryOk word page image_len size value_len result }
    ensures held { word % 4 ≡ 0 → IfOk result (λ g. Held g image_len) }
    ensures fits { OnOk result ((size ≤ 32) × (value_len ≤ 32768)) }
{
    if page == 0 {
        return Err(Answer::PagesTooSmall);
    }
    let geo = geometry(word, page, image_len);
    let least = 3 * word + 8; // a page that holds one item
    if image_len % page != 0 {
        return Err(Answer::EndRangeNotAtPageBoundary);
    }
    if geo.pages < 2 {
        return Err(Answer::RangeTooSmall);
    }
    if page < least {
        return Err(Answer::PagesTooSmall);
    }
    if page % word != 0 || page > 32768 || geo.pages > 256 {
        return Err(Answer::Geometry);
    }
    if size > 32 {
        return Err(Answer::CacheSize);
    }
    if page - 2 * word - 12 < value_len {
        return Err(Answer::ItemTooBig);
    }
    Ok(geo)
}

// The first refusal that is due, Done where none is. A call without a cache or a value has 0 there.
pub fn refusal(word: usize, page: usize, image_len: usize, size: usize, value_len: usize) -> Answer
    requires { (4 ≤ word) × (word ≤ 8) }
    ensures { result ≡ refusal word page image_len size value_len }
{
    match try_geometry(word, page, image_len, size, value_len) {
        Ok(_) => Answer::Done,
        Err(no) => no,
    }
}

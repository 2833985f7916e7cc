// Items: the reading at a place, what an item is, and the loops over a data area.
#![tactic(auto)]

ghost use Rattle.std.specs.Prelude.{◌≡◌, ◌+◌, ◌≤◌, ◌<◌, Ok, length, leb};
ghost use Rattle.rules.specs.Bytes.{both};
ghost use Rattle.rules.specs.Items.{item_of, is_present, read, presents};
ghost use Rattle.rules.specs.Pages.{blank_at};
ghost use Rattle.rules.specs.Fetch.{last_with};
ghost use Rattle.items.specs.Code.{part, read_of, Fine, Stays, Keyed, counts, told, SpotIn, scan_in};

use rules::Kind;

// What stands at a place: the scan's end, a word to skip, or an item of this data length.
#[derive(Clone, Copy, PartialEq, Eq)]
pub enum Read {
    End,
    Skip,
    Item(usize),
}

// Where an item stands, and its data length.
#[derive(Clone, Copy, PartialEq, Eq)]
pub struct Spot {
    pub at: usize,
    pub len: usize,
}

// The image is not as the rules make it: where a call meets that, its answer is Corrupted.
#[derive(Clone, Copy, PartialEq, Eq)]
pub struct Corrupt;

// What stands at the start of s, which ends where the data area does.
pub fn look(s: &[u8], w: usize) -> Read
    requires { (4 ≤ w) × (w ≤ 8) }
    ensures { (read_of s.now result ≡ read w s.now) × Fine w (length s.now) result }
{
    if s.len() < 8 {
        return Read::End;
    }
    if words::all_ff(&s[..8]) {
        return Read::End;
    }
    let len = words::le16(s, 0);
    if len + words::le16(s, 2) != 65535 {
        return Read::Skip;
    }
    if s.len() < words::size(w, len) {
        return Read::Skip;
    }
    Read::Item(len)
}

// What stands at place at of a data area that ends at e. The image, the area and the word size stay side by side here
// and below: a struct of them would be taken apart at once.
pub fn look_at(img: &[u8], at: usize, e: usize, w: usize) -> Read
    requires { (at ≤ e) × (e ≤ length img.now) × (4 ≤ w) × (w ≤ 8) }
    ensures { (read_of (part img.now at e) result ≡ read w (part img.now at e)) × Stays w at e result }
{
    look(&img[at..e], w)
}

// What the item of data length len at the start of s is.
pub fn kind(s: &[u8], len: usize) -> Kind
    requires { (8 + len ≤ length s.now) × (len < 65536) }
    ensures { result ≡ (item_of s.now len).kind }
{
    let check = words::le32(s, 4);
    if check == 0 {
        return Kind::Removed;
    }
    if check != words::zeros(&s[8..8 + len]) + 1 {
        return Kind::Damaged;
    }
    if 4 <= len {
        return Kind::Present;
    }
    Kind::Damaged
}

// Is it Present? Then it has a key.
pub fn present(s: &[u8], len: usize) -> bool
    requires { (8 + len ≤ length s.now) × (len < 65536) }
    ensures { (result ≡ is_present (item_of s.now len).kind) × Keyed result len }
{
    kind(s, len) == Kind::Present
}

// Its key, where it has one.
pub fn key(s: &[u8], len: usize) -> u32
    requires { (8 + len ≤ length s.now) × (4 ≤ len) }
    ensures { result ≡ (item_of s.now len).key }
{
    words::le32(s, 8)
}

// Is it Present with the wanted key? Bits are counted only where the key fits.
pub fn has_key(s: &[u8], len: usize, wanted: u32) -> bool
    requires { (8 + len ≤ length s.now) × (len < 65536) }
    ensures { (result ≡ counts wanted (item_of s.now len)) × Keyed result len }
{
    4 <= len && key(s, len) == wanted && present(s, len)
}

// The last Present item with the key from a place to the area's end. The place is no counted index: each reading says
// where the next one stands.
pub fn last_in(img: &[u8], a: usize, e: usize, w: usize, wanted: u32) -> Option<Spot>
    requires { (4 ≤ a) × (a ≤ e) × (e ≤ length img.now) × (4 ≤ w) × (w ≤ 8) }
    ensures { (Ok result ≡ told (last_with wanted (presents (scan_in w img.now a e).items))) × SpotIn e result }
{
    let mut at = a;
    let mut best = None;
    while at < e {
        let r = look_at(img, at, e, w);
        match r {
            Read::End => {
                return best;
            }
            Read::Skip => {
                at += w;
                continue;
            }
            Read::Item(len) => {
                if has_key(&img[at..e], len, wanted) {
                    best = Some(Spot { at, len });
                }
                at += words::size(w, len);
            }
        }
    }
    best
}

// Where the scan from a place to the area's end ends, in the same steps.
pub fn end_in(img: &[u8], a: usize, e: usize, w: usize) -> usize
    requires { (a ≤ e) × (e ≤ length img.now) × (4 ≤ w) × (w ≤ 8) }
    ensures { (result ≡ (scan_in w img.now a e).end) × (a ≤ result) × (result ≤ e) }
{
    let mut at = a;
    while at < e {
        let r = look_at(img, at, e, w);
        match r {
            Read::End => {
                return at;
            }
            Read::Skip => {
                at += w;
                continue;
            }
            Read::Item(len) => {
                at += words::size(w, len);
            }
        }
    }
    at
}

// Do m bytes from a fit before e, and are they blank?
pub fn free(img: &[u8], a: usize, e: usize, m: usize) -> bool
    requires { (a ≤ e) × (e ≤ length img.now) }
    ensures { result ≡ both (leb (a + m) e) (blank_at img.now a m) }
{
    if e - a < m {
        return false;
    }
    words::all_ff(&img[a..a + m])
}

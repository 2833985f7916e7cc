// Bytes, zero bits, little-endian numbers, sizes, and the two changes of the image.
#![tactic(auto)]

ghost use Rattle.std.specs.Prelude.{◌≡◌, ◌+◌, ◌*◌, ◌^◌, ◌≤◌, ◌<◌, length, take, drop, replicate};
ghost use Rattle.rules.specs.Power.{lasts, spend};
ghost use Rattle.laws.specs.Power.{Wrote};
ghost use Rattle.rules.specs.Bytes.{zero_bits, zeros, all_ff, of_le, round_up, splice, program, pick};
ghost use Rattle.rules.specs.Items.{size};

// The zero bits of a byte.
#[tactic(auto, using(crate::proofs::Laws::byte_zeros))]
pub fn zero_bits(b: u8) -> u32
    ensures { (result ≡ zero_bits b) × (result ≤ 8) }
{
    b.count_zeros()
}

// The number that the two bytes at a spell, the lower first.
pub fn le16(s: &[u8], a: usize) -> usize
    requires { a + 2 ≤ length s.now }
    ensures { (result ≡ of_le (take 2 (drop a s.now))) × (result < 65536) }
{
    usize::from(u16::from_le_bytes([s[a], s[a + 1]]))
}

// The number that the four bytes at a spell, the lower first. One generic function would be longer than these two.
pub fn le32(s: &[u8], a: usize) -> u32
    requires { a + 4 ≤ length s.now }
    ensures { result ≡ of_le (take 4 (drop a s.now)) }
{
    u32::from_le_bytes([s[a], s[a + 1], s[a + 2], s[a + 3]])
}

// Are all bytes 0xFF? Eight are looked at together.
pub fn all_ff(s: &[u8]) -> bool
    ensures { result ≡ all_ff s.now }
{
    let (eights, rest) = s.as_chunks::<8>();
    eights
        .iter()
        .all(|eight| u64::from_le_bytes(*eight) == u64::MAX)
        && rest.iter().all(|byte| *byte == u8::MAX)
}

// The zero bits of the bytes: of eight at a time, then of four, then of each. Most calls count a word of four, and an
// item's data often ends in four bytes: one by one they would take a third longer.
pub fn zeros(s: &[u8]) -> u32
    requires { length s.now ≤ 65536 }
    ensures { (result ≡ zeros s.now) × (result ≤ 8 * length s.now) }
{
    if let [a, b, c, d] = *s {
        return u32::from_le_bytes([a, b, c, d]).count_zeros();
    }
    let (eights, rest) = s.as_chunks::<8>();
    let (fours, bytes) = rest.as_chunks::<4>();
    let in_eights: u32 = eights
        .iter()
        .map(|eight| u64::from_le_bytes(*eight).count_zeros())
        .sum();
    let in_fours: u32 = fours
        .iter()
        .map(|four| u32::from_le_bytes(*four).count_zeros())
        .sum();
    let in_bytes: u32 = bytes.iter().map(|byte| zero_bits(*byte)).sum();
    in_eights + in_fours + in_bytes
}

// x rounded up to a multiple of a word. The usual word of four bytes needs no division, and no remainder and test either:
// each step of a scan waits for this sum.
#[tactic(auto, using(crate::proofs::Laws::multiple_is), unfolding(rules::specs::Bytes::round_up))]
pub fn round_up(w: usize, x: usize) -> usize
    requires { (4 ≤ w) × (w ≤ 8) × (x < 2 ^ 63) }
    ensures { (result ≡ round_up w x) × (x ≤ result) × (result < x + w) }
{
    if w == 4 {
        (x + 3) / 4 * 4
    } else {
        x.next_multiple_of(w)
    }
}

// The bytes that an item of data length len takes.
#[tactic(auto, unfolding(rules::specs::Items::size))]
pub fn size(w: usize, len: usize) -> usize
    requires { (4 ≤ w) × (w ≤ 8) × (len < 2 ^ 62) }
    ensures { (result ≡ size w len) × (8 + len ≤ result) × (result < 8 + len + w) }
{
    8 + round_up(w, len)
}

// Programs bytes at a place: each bit becomes the AND of old and new. A word of four, as each mark and removal is, takes no
// loop: of a loop that programs zeros the compiler makes a call that fills memory.
#[tactic(auto, using(crate::proofs::Laws::program_step, crate::proofs::Laws::program_end))]
fn and_bytes(img: &mut [u8], at: usize, bytes: &[u8])
    requires { at + length bytes.now ≤ length img.old }
    ensures { img.new ≡ program img.old at bytes.now }
{
    if let [a, b, c, d] = *bytes {
        img[at] &= a;
        img[at + 1] &= b;
        img[at + 2] &= c;
        img[at + 3] &= d;
        return;
    }
    for i in 0..bytes.len() {
        img[at + i] &= bytes[i];
    }
}

// So much power never runs out.
pub const ENDLESS: usize = usize::MAX;

// What is left of the power after these units.
#[tactic(auto, unfolding(rules::specs::Power::spend))]
fn spend(power: usize, units: usize) -> usize
    requires { units ≤ power }
    ensures { result ≡ spend power units }
{
    if power < ENDLESS {
        power - units
    } else {
        power
    }
}

// Programs bytes at a place while the power lasts, a unit for each. All of the map's programming is done here. Image and
// power stand side by side here and in erase: what both ask of the image is a length, so a type of both would ask more.
pub fn program(img: &mut [u8], at: usize, b: &[u8], power: &mut usize)
    requires { at + length b.now ≤ length img.old }
    ensures { Wrote img.old power.old img.new power.new at b.now }
{
    let allowed = b.len().min(*power);
    and_bytes(img, at, &b[..allowed]);
    *power = spend(*power, allowed);
}

// Makes all bytes 0xFF. A loop, which the compiler makes one fill of memory: std's `fill` writes the last byte apart.
fn blank(bytes: &mut [u8])
    ensures { bytes.new ≡ replicate (length bytes.old) 255 }
{
    for i in 0..bytes.len() {
        bytes[i] = 255;
    }
}

// Erases n bytes from a place on, if there is a unit of power: they become 0xFF. All of the map's erasing is done here.
#[tactic(auto, using(crate::proofs::Laws::erased, crate::proofs::Laws::not_begun, crate::proofs::Laws::none_left))]
pub fn erase(img: &mut [u8], at: usize, n: usize, power: &mut usize)
    requires { at + n ≤ length img.old }
    ensures { (img.new ≡ pick (lasts power.old 1) (splice img.old at (replicate n 255)) img.old)
        × (power.new ≡ spend power.old 1) }
{
    if 0 < *power {
        blank(&mut img[at..at + n]);
        *power = spend(*power, 1);
    }
}

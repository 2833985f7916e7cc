// Items are written and copied, whole words in order of place.
#![tactic(auto)]

ghost use Rattle.std.specs.Prelude.{◌≡◌, ◌++◌, ◌⊎◌, ◌+◌, ◌-◌, ◌%◌, ◌≤◌, ◌<◌, length, take, drop, replicate};
ghost use Rattle.rules.specs.Bytes.{to_le, round_up};
ghost use Rattle.rules.specs.Items.{size, pad, encode};
ghost use Rattle.laws.specs.Power.{Wrote};
ghost use Rattle.write.specs.Code.{data_bytes};

// An item's header: the data length, its complement, the check word.
fn header(len: u16, check: u32) -> [u8; 8]
    ensures { result ≡ to_le 2 len ++ (to_le 2 (65535 - len) ++ to_le 4 check) }
{
    let [l0, l1] = len.to_le_bytes();
    let [n0, n1] = (!len).to_le_bytes();
    let [c0, c1, c2, c3] = check.to_le_bytes();
    [l0, l1, n0, n1, c0, c1, c2, c3]
}

// The bytes, and 0xFF behind them.
fn padded(bytes: &[u8]) -> [u8; 8]
    requires { length bytes.now ≤ 8 }
    ensures { result ≡ bytes.now ++ replicate (8 - length bytes.now) 255 }
{
    let mut word = [255; 8];
    word[..bytes.len()].copy_from_slice(bytes);
    word
}

// Programs bytes, and 0xFF behind them up to a word. Whole words are taken from the bytes as they are.
#[tactic(auto, using(laws::specs::Words::le_round_up))]
fn program_padded(img: &mut [u8], at: usize, w: usize, bytes: &[u8], power: &mut usize)
    requires { (4 ≤ w) × (w ≤ 8) × (at + round_up w (length bytes.now) ≤ length img.old) }
    ensures { Wrote img.old power.old img.new power.new at (bytes.now ++ pad w (length bytes.now)) }
{
    let (whole, last) = bytes.split_at(bytes.len() / w * w);
    words::program(img, at, whole, power);
    if !last.is_empty() {
        words::program(img, at + whole.len(), &padded(last)[..w], power);
    }
}

// The first word of an item's data: the key, and behind it what fits of the value.
fn first_word(key: u32, front: &[u8]) -> [u8; 8]
    requires { length front.now ≤ 4 }
    ensures { result ≡ to_le 4 key ++ (front.now ++ replicate (4 - length front.now) 255) }
{
    let mut word = padded(&key.to_le_bytes());
    word[4..4 + front.len()].copy_from_slice(front);
    word
}

// Programs an item's data and its padding.
fn write_data(img: &mut [u8], at: usize, w: usize, key: u32, v: &[u8], power: &mut usize)
    requires { (4 ≤ w) × (w ≤ 8) × (length v.now ≤ 32768) × (at + length (data_bytes w key v.now) ≤ length img.old) }
    ensures { Wrote img.old power.old img.new power.new at (data_bytes w key v.now) }
{
    let (front, rest) = v.split_at(v.len().min(w - 4));
    words::program(img, at, &first_word(key, front)[..w], power);
    program_padded(img, at + w, w, rest, power);
}

// Programs a new item. Image, word size and power stand side by side: a type of them would ask more of callers.
#[tactic(auto, using(crate::proofs::Laws::size_data))]
pub fn write_item(img: &mut [u8], at: usize, w: usize, key: u32, v: &[u8], power: &mut usize)
    requires { (4 ≤ w) × (w ≤ 8) × (length v.now ≤ 32768) × (at + size w (4 + length v.now) ≤ length img.old) }
    ensures { Wrote img.old power.old img.new power.new at (encode w key v.now) }
{
    // The length fits: `try_from` would bring an error that never comes.
    let len = (4 + v.len()) as u16;
    let check = key.count_zeros() + words::zeros(v) + 1;
    let head = header(len, check);
    words::program(img, at, &head, power);
    write_data(img, at + 8, w, key, v, power);
}

// Programs a copy of the item of data length len: header and data as they stand, padding 0xFF.
pub fn copy_item(
    img: &mut [u8],
    source: usize,
    len: usize,
    target: usize,
    w: usize,
    power: &mut usize,
)
    requires { (4 ≤ w) × (w ≤ 8) × (8 % w ≡ 0) × (len < 65536)
        × (source + 8 + len ≤ length img.old) × (target + size w len ≤ length img.old)
        × ((source + 8 + len ≤ target) ⊎ (target + size w len ≤ source)) }
    ensures { Wrote img.old power.old img.new power.new target (take (8 + len) (drop source img.old) ++ pad w len) }
{
    let bytes = 8 + len;
    if source < target {
        let (front, back) = img.split_at_mut(target);
        program_padded(back, 0, w, &front[source..source + bytes], power);
    } else {
        let (front, back) = img.split_at_mut(source);
        program_padded(front, target, w, &back[..bytes], power);
    }
}

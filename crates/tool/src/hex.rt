// Bytes as pairs of hexadecimal digits, out and in.
ghost use Rattle.std.specs.Prelude.{◌≡◌, ◌<◌, length, take, IfOk};
ghost use Rattle.tool.specs.Hex.{glyph, pair, spelled, byte_of, hex_answer};

use crate::number::digit;

// Why typed bytes are not taken: they are no pairs of digits, or more than there is room for.
#[derive(Clone, Copy, PartialEq, Eq, Debug)]
pub enum HexError {
    Bad,
    Long,
}

// The digit of a number below 16.
fn glyph(n: u8) -> u8
    requires { n < 16 }
    ensures { result ≡ glyph n }
{
    if n < 10 { b'0' + n } else { b'a' - 10 + n }
}

// The two digits of a byte.
pub fn show(b: u8) -> [u8; 2]
    ensures { result ≡ pair b }
{
    [glyph(b / 16), glyph(b % 16)]
}

// The byte that two digits spell.
fn byte(high: u8, low: u8) -> Option<u8>
    ensures { result ≡ byte_of high low }
{
    Some((16 * digit(high)? + digit(low)?) as u8)
}

// The bytes that pairs of digits spell, at the start of out: how many.
pub fn read(s: &[u8], out: &mut [u8]) -> Result<usize, HexError>
    ensures value { result ≡ hex_answer s.now (length out.old) }
    ensures bytes { IfOk result (λ n. take n out.new ≡ spelled s.now) }
{
    let (pairs, rest) = s.as_chunks::<2>();
    if !rest.is_empty() {
        return Err(HexError::Bad);
    }
    if out.len() < pairs.len() {
        return Err(HexError::Long);
    }
    for (i, [high, low]) in pairs.iter().enumerate() {
        out[i] = byte(*high, *low).ok_or(HexError::Bad)?;
    }
    Ok(pairs.len())
}

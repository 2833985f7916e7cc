// Numbers as they are typed: decimal, or hexadecimal after 0x.
ghost use Rattle.std.specs.Prelude.{◌≡◌, ◌*◌, ◌<◌, ◌≤◌, SomeIff};
ghost use Rattle.tool.specs.Numbers.{digit_of, number_in, number_of};

// The value of a hexadecimal digit, of either case.
pub fn digit(b: u8) -> Option<u32>
    ensures { SomeIff result (digit_of b < 16) (digit_of b) }
{
    char::from(b).to_digit(16)
}

// The value of a digit of this base.
fn digit_in(b: u8, base: u32) -> Option<u32>
    requires { base ≤ 16 }
    ensures { SomeIff result (digit_of b < base) (digit_of b) }
{
    digit(b).filter(|d| *d < base)
}

// The number that digits of a base spell, where it has 32 bits.
fn read_in(s: &[u8], base: u32) -> Option<u32>
    requires { (0 < base) × (base ≤ 16) }
    ensures { result ≡ number_in base s.now }
{
    if s.is_empty() {
        return None;
    }
    let mut n: u32 = 0;
    for b in s {
        let d = digit_in(*b, base)?;
        n = n.checked_mul(base)?.checked_add(d)?;
    }
    Some(n)
}

// The number that is typed here, where it is one of 32 bits.
pub fn read(s: &[u8]) -> Option<u32>
    ensures { result ≡ number_of s.now }
{
    match s {
        [b'0', b'x', digits @ ..] => read_in(digits, 16),
        _ => read_in(s, 10),
    }
}

// The product of two numbers.
pub fn product(a: u32, b: u32) -> usize
    ensures { result ≡ a * b }
{
    a as usize * b as usize
}

// A bar of 32 cells: bytes of four kinds, laid one kind after the other.
ghost use Rattle.std.specs.Prelude.{◌≡◌};
ghost use Rattle.tool.specs.Bars.{touches, cell_of};

// Do the bytes from a up to b and those from lo up to hi have one in common?
fn touches(a: u32, b: u32, lo: u32, hi: u32) -> bool
    ensures { result ≡ touches a b lo hi }
{
    a.max(lo) < b.min(hi)
}

// Cell k of a bar: the first kind of damaged, removed, present and free that has a byte in it.
pub fn cell(k: u8, present: u16, removed: u16, damaged: u16, free: u16) -> u8
    ensures { result ≡ cell_of k present removed damaged free }
{
    let k = u32::from(k);
    let a = u32::from(present);
    let b = a + u32::from(removed);
    let c = b + u32::from(damaged);
    let all = c + u32::from(free);
    let lo = k * all / 32;
    let hi = ((k + 1) * all / 32).max(lo + 1);
    if touches(b, c, lo, hi) {
        b'x'
    } else if touches(a, b, lo, hi) {
        b'-'
    } else if touches(0, a, lo, hi) {
        b'#'
    } else {
        b'.'
    }
}

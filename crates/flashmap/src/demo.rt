// A small image in memory: three battery packs, whose charge totals are stored after each flight.
use crate::image::Image;
use crate::{listing, pages};
use shell::sheet::Sheet;
use shell::trouble::Trouble;
use std::alloc::Global;
use std::io::Write;

// The total of a pack after a flight, in four bytes, the lowest first.
fn total(pack: u8, flight: u8) -> [u8; 4] {
    let mah = 2100 * u32::from(flight) + 10 * u32::from(pack);
    mah.to_le_bytes()
}

// Thirteen flights, and then pack 2 is retired.
fn season(image: &mut Image<'_>) -> Result<(), Trouble> {
    for flight in 1..14 {
        for pack in 1..4 {
            image.store(u32::from(pack), &total(pack, flight))?;
        }
    }
    image.remove(2)?;
    Ok(())
}

/// The season, drawn and listed.
pub fn run<W: Write + Drop>(alloc: Global, out: &mut Sheet<W>) -> Result<(), Trouble> {
    let mut image = Image {
        path: b"demo",
        page: 128,
        bytes: vec![in alloc; 255u8; 768]?,
    };
    season(&mut image)?;
    out.put_line("six pages of 128 bytes; packs 1 to 3 flew 13 times; pack 2 is retired\n");
    pages::draw(&image, out)?;
    out.put_line("\ntheir charge totals in mAh, four bytes, the lowest first:\n");
    listing::list(alloc, &mut image, out)
}

// The pages of an image: whether they are sound, and what their bytes hold.
use crate::image::Image;
use inspect::{Fault, Tally};
use rules::PageState;
use shell::sheet::Sheet;
use shell::trouble::Trouble;
use std::fmt;
use std::io::Write;

// The reason why an image is not sound.
#[derive(Clone, Copy)]
struct Reason(Fault);

impl fmt::Display for Reason {
    fn fmt<W: fmt::Write>(&self, f: &mut fmt::Formatter<W>) -> fmt::Result {
        match self.0 {
            Fault::Refused(_) => Ok(()),
            Fault::CorruptedPage(q) => {
                write!(
                    f,
                    "page {q} is corrupted: its end word is marked, its start word is not"
                )
            }
            Fault::NoPartialOpen(q) => write!(f, "page {q} is closed, and no page is partial open"),
            Fault::SecondPartialOpen(q) => write!(
                f,
                "page {q} is partial open, and an earlier one is too"
            ),
            Fault::NextNotOpen(q) => write!(
                f,
                "page {q} is not open, and the one before it is partial open"
            ),
            Fault::OpenApart(q) => {
                write!(
                    f,
                    "page {q} is open, apart from the open pages after the partial open one"
                )
            }
            Fault::DataNotBlank(q, place) => {
                write!(
                    f,
                    "page {q} is open, yet the byte at place {place} is not FF"
                )
            }
            Fault::TailNotBlank(q, place) => write!(
                f,
                "page {q} is partial open, and after its items the byte at place {place} is not FF"
            ),
        }
    }
}

/// sound, or the first reason why not.
pub fn check<W: Write + Drop>(image: &Image<'_>, out: &mut Sheet<W>) -> Result<(), Trouble> {
    image.fits()?;
    match image.fault() {
        None => {
            out.put_line("sound");
            Ok(())
        }
        Some(fault) => {
            out.put_line(format_args!("not sound: {}", Reason(fault)));
            Err(Trouble::Unsound)
        }
    }
}

fn name(state: PageState) -> &'static str {
    match state {
        PageState::Open => "Open",
        PageState::PartialOpen => "PartialOpen",
        PageState::Closed => "Closed",
        PageState::Corrupted => "Corrupted",
    }
}

// A count of bytes of a page; no page has over 32,768.
fn small(n: usize) -> u16 {
    u16::try_from(n).unwrap_or(u16::MAX)
}

// The 32 cells of a page's bar.
fn put_bar<W: Write + Drop>(tally: &Tally, out: &mut Sheet<W>) {
    let present = small(tally.present);
    let removed = small(tally.removed);
    let damaged = small(tally.damaged);
    let free = small(tally.free);
    for k in 0..32 {
        out.put_bytes(&[tool::bar::cell(k, present, removed, damaged, free)]);
    }
}

// A page's line.
fn put_page<W: Write + Drop>(q: usize, tally: &Tally, out: &mut Sheet<W>) {
    out.put(format_args!("{q:>3} {:<12}|", name(tally.state)));
    put_bar(tally, out);
    out.put_line(format_args!(
        "|{:>7}{:>8}{:>8}{:>8}",
        tally.present, tally.removed, tally.damaged, tally.free
    ));
}

/// A line for each page: its state, a bar of its bytes, and their counts.
pub fn draw<W: Write + Drop>(image: &Image<'_>, out: &mut Sheet<W>) -> Result<(), Trouble> {
    image.fits()?;
    out.put_line(
        "  p state       |bytes of its data               |present removed damaged    free",
    );
    for q in 0..image.pages() {
        put_page(q, &inspect::tally_page(&image.bytes, image.page, q), out);
    }
    out.put_line("# present  - removed  x damaged  . free; a cell is 1/32 of a page's data");
    Ok(())
}

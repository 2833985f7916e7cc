// A command: its words read, its image loaded, its verb done.
use crate::image::Image;
use crate::{change, demo, listing, pages};
use shell::sheet::Sheet;
use shell::trouble::{Part, Trouble};
use std::io::Write;
use std::rt::Files;
use tool::number;

const HELP: &str = "flashmap: shows and changes the image of a flash key-value map

  flashmap IMAGE PAGE check           sound, or the first reason why not
  flashmap IMAGE PAGE list            the newest value of each key
  flashmap IMAGE PAGE walk            all versions in ring order, with their places
  flashmap IMAGE PAGE draw            each page: its state and a bar of its bytes
  flashmap IMAGE PAGE fetch KEY       the newest value of one key
  flashmap IMAGE PAGE store KEY HEX   gives a key a value
  flashmap IMAGE PAGE remove KEY      removes a key
  flashmap IMAGE PAGE erase           erases all pages
  flashmap IMAGE PAGE blank PAGES     makes a blank image, where there is no file yet
  flashmap script FILE                runs the commands of a file, one a line
  flashmap demo                       fills a small image in memory, and draws it
  flashmap help                       shows this

IMAGE is a file of at most 2 MiB, PAGE the size of its pages in bytes. Numbers
are decimal, or hexadecimal after 0x. HEX is two digits a byte; - or \"\" is the
empty value. A changed image is written to IMAGE.new, which then takes the name
IMAGE. What goes wrong is told on standard error, with exit status 1, and
leaves the image as it was. A line of a script is a command without the word
flashmap, or a comment that begins with #.";

// What to do with the image in a file, and the words after it as they are typed.
#[derive(Clone, Copy)]
enum Verb<'a> {
    Check,
    List,
    Walk,
    Draw,
    Erase,
    Fetch { key: &'a [u8] },
    Remove { key: &'a [u8] },
    Store { key: &'a [u8], value: &'a [u8] },
}

impl<'a> Verb<'a> {
    fn parse(verb: &[u8], words: &[&'a [u8]]) -> Result<Verb<'a>, Trouble> {
        match (verb, words) {
            (b"check", []) => Ok(Verb::Check),
            (b"list", []) => Ok(Verb::List),
            (b"walk", []) => Ok(Verb::Walk),
            (b"draw", []) => Ok(Verb::Draw),
            (b"erase", []) => Ok(Verb::Erase),
            (b"fetch", [key]) => Ok(Verb::Fetch { key }),
            (b"remove", [key]) => Ok(Verb::Remove { key }),
            (b"store", [key, value]) => Ok(Verb::Store { key, value }),
            (b"check" | b"list" | b"walk" | b"draw" | b"erase", _) => Err(Trouble::Words),
            (b"fetch" | b"remove" | b"store" | b"blank", _) => Err(Trouble::Words),
            _ => Err(Trouble::Bad(Part::Verb)),
        }
    }
}

// The number that a word of a command is.
fn number(word: &[u8], part: Part) -> Result<u32, Trouble> {
    number::read(word).ok_or(Trouble::Bad(part))
}

// A verb on an image.
fn on_image<R: Files + AllocGlobal, W: Write + Drop>(
    rt: &R,
    verb: Verb<'_>,
    image: &mut Image<'_>,
    out: &mut Sheet<W>,
) -> Result<(), Trouble> {
    match verb {
        Verb::Check => pages::check(image, out),
        Verb::List => listing::list(rt.alloc(), image, out),
        Verb::Walk => listing::walk(image, out),
        Verb::Draw => pages::draw(image, out),
        Verb::Erase => change::erase(rt, image, out),
        Verb::Fetch { key } => listing::fetch(image, number(key, Part::Key)?, out),
        Verb::Remove { key } => change::remove(rt, image, number(key, Part::Key)?, out),
        Verb::Store { key, value } => {
            change::store(rt, image, number(key, Part::Key)?, value, out)
        }
    }
}

/// A command, by its words; no word asks for help.
pub fn run<R: Files + AllocGlobal, W: Write + Drop>(
    rt: &R,
    words: &[&[u8]],
    out: &mut Sheet<W>,
) -> Result<(), Trouble> {
    match words {
        [] | [b"help"] => {
            out.put_line(HELP);
            Ok(())
        }
        [b"demo"] => demo::run(rt.alloc(), out),
        [path, page, b"blank", pages] => {
            let page = number(page, Part::Page)?;
            let pages = number(pages, Part::Pages)?;
            change::blank(rt, path, page, pages, out)
        }
        [path, page, verb, words @ ..] => {
            let verb = Verb::parse(verb, words)?;
            let page = number(page, Part::Page)?;
            on_image(rt, verb, &mut Image::load(rt, path, page)?, out)
        }
        _ => Err(Trouble::Words),
    }
}

// What can go wrong, and the sentence for it: what is the matter, and what to do.
ghost use Rattle.std.specs.Prelude.{◌≡◌, MatchOption};
ghost use Rattle.std.specs.IoError.{raw_os_error};
ghost use Rattle.shell.specs.declared.trouble.Reason.TheVariants.{Other};
ghost use Rattle.shell.specs.declared.trouble.Trouble.TheVariants.{Memory};
ghost use Rattle.shell.specs.Troubles.{reason_of, value_trouble};

use crate::sheet::Sheet;
use std::alloc::{AllocError, AllocFailed};
use std::io;
use std::io::Write;
use thiserror::Error;
use tool::hex::HexError;

// The system's numbers of why it refused. std's kinds of error are wider: PermissionDenied is EPERM too, and
// InvalidFilename a path that is not UTF-8.
const ENOENT: i32 = 2;

const EACCES: i32 = 13;

const ENOTDIR: i32 = 20;

const EISDIR: i32 = 21;

const ENOSPC: i32 = 28;

const EROFS: i32 = 30;

const ENAMETOOLONG: i32 = 36;

/// A word of a command that says nothing.
#[derive(Clone, Copy, Debug, Error)]
pub enum Part {
    #[error("is no page size; give PAGE in bytes, decimal or hexadecimal, as 4096 or 0x1000")]
    Page,
    #[error("is no verb; use check, list, walk, draw, fetch, store, remove, erase or blank")]
    Verb,
    #[error("is no key; give KEY from 0 to 4294967295, decimal or hexadecimal, as 31 or 0x1f")]
    Key,
    #[error("is no value; give HEX as two hexadecimal digits a byte, or - for the empty value")]
    Hex,
    #[error("is no number of pages; give PAGES from 2 to 256")]
    Pages,
}

impl Part {
    // Which word of a command it is, from 0.
    fn index(self) -> usize {
        match self {
            Part::Page => 1,
            Part::Verb => 2,
            Part::Key | Part::Pages => 3,
            Part::Hex => 4,
        }
    }
}

/// What the system was asked, and refused.
#[derive(Clone, Copy, Debug, Error)]
pub enum Deed {
    #[error("it can't be opened; give the path of a file, or make a new image: flashmap IMAGE PAGE blank PAGES")]
    Open,
    #[error("it can't be read; give the path of a file that can be read")]
    Read,
    #[error("no file can be made there; nothing was changed; put the image where you may write")]
    Make,
    #[error("the image can't be written; nothing was changed; make room and try again")]
    Write,
    #[error("the changed image can't take its name; nothing was changed; put the image where you may write")]
    Rename,
}

/// Why the system refused.
#[derive(Clone, Copy, Debug, Error)]
pub enum Reason {
    #[error("no such file or folder")]
    NoFile,
    #[error("no permission")]
    NoPermission,
    #[error("it is a folder")]
    Folder,
    #[error("a part of the path is no folder")]
    NoFolder,
    #[error("the disk is full")]
    DiskFull,
    #[error("the disk is read-only")]
    ReadOnly,
    #[error("the path is too long")]
    PathLong,
    #[error("error")]
    Other,
}

impl Reason {
    // The reason that the system's number stands for.
    fn of(number: i32) -> Reason
        ensures { result ≡ reason_of number }
    {
        match number {
            ENOENT => Reason::NoFile,
            EACCES => Reason::NoPermission,
            ENOTDIR => Reason::NoFolder,
            EISDIR => Reason::Folder,
            ENOSPC => Reason::DiskFull,
            EROFS => Reason::ReadOnly,
            ENAMETOOLONG => Reason::PathLong,
            _ => Reason::Other,
        }
    }
}

impl From<io::Error> for Reason {
    ghost from_gives = { λ e reason. MatchOption (raw_os_error e) (reason ≡ Other) (λ number. reason ≡ reason_of number) };

    fn from(e: io::Error) -> Reason {
        match e.raw_os_error() {
            Some(number) => Reason::of(number),
            None => Reason::Other,
        }
    }
}

/// Why the map refused, with its number in the table of answers.
#[derive(Clone, Copy, Debug, Error)]
pub enum Refusal {
    #[error("its length is no multiple of PAGE; give the page size that it was made with \
        (1, EndRangeNotAtPageBoundary)")]
    EndRangeNotAtPageBoundary,
    #[error("it has fewer than two pages; give a smaller PAGE or more pages (2, RangeTooSmall)")]
    RangeTooSmall,
    #[error("PAGE is too small; give 20 or more (3, PagesTooSmall)")]
    PagesTooSmall,
    #[error("PAGE is no multiple of 4, or over 32768, or there are over 256 pages; give another PAGE (4, Geometry)")]
    Geometry,
    #[error("the cache is too large; give it at most 32 entries (5, CacheSize)")]
    CacheSize,
    #[error("the value is too long; give at most PAGE - 20 bytes (6, ItemTooBig)")]
    ItemTooBig,
    #[error("the map is full; nothing was changed; remove keys or use a larger image (7, FullStorage)")]
    FullStorage,
    #[error("it is damaged past repair; nothing was changed; see check for the place, and erase to start anew \
        (8, Corrupted)")]
    Corrupted,
}

/// What went wrong with a command.
#[derive(Clone, Copy, Debug, Error)]
pub enum Trouble {
    // too few words, or too many
    #[error("these words are no command; \"flashmap help\" shows each command with its words")]
    Words,
    // the words have no room
    #[error("the words are too long; give a path of at most 4095 bytes, and at most 32748 bytes of value")]
    Long,
    #[error("there is too little memory; end other programs and try again")]
    Memory,
    #[error("{0}")]
    Bad(Part),
    #[error("{0} ({1})")]
    System(Deed, Reason),
    // the file has no room
    #[error("it is too large; give an image of at most 2097152 bytes, or a script of at most 65536")]
    Large,
    #[error("{0}")]
    Refused(Refusal),
    // a look was answered Corrupted
    #[error("it is damaged; see check for the place; a store or a removal repairs what it can (8, Corrupted)")]
    Damaged,
    #[error("it is not sound; keep a copy: a store or a removal repairs what it can, erase starts anew")]
    Unsound,
    // the path of a new image is taken
    #[error("it exists, and blank writes over no file; give another path, or remove the file first")]
    Exists,
    // the path that a changed image is written to is taken
    #[error("a file of its name with .new after it exists, from a run that goes on or was cut off; \
        if none goes on, remove it")]
    Halfway,
}

impl From<AllocError> for Trouble {
    ghost from_gives = { λ _ trouble. trouble ≡ Memory };

    fn from(_e: AllocError) -> Trouble {
        Trouble::Memory
    }
}

impl<T: Drop> From<AllocFailed<T>> for Trouble {
    ghost from_gives = { λ _ trouble. trouble ≡ Memory };

    fn from(_e: AllocFailed<T>) -> Trouble {
        Trouble::Memory
    }
}

impl From<HexError> for Trouble {
    ghost from_gives = { λ e trouble. trouble ≡ value_trouble e };

    fn from(e: HexError) -> Trouble {
        match e {
            HexError::Bad => Trouble::Bad(Part::Hex),
            HexError::Long => Trouble::Refused(Refusal::ItemTooBig),
        }
    }
}

impl Trouble {
    /// The line for a trouble with the command of these words, whose first is a path.
    pub fn tell<W: Write + Drop>(self, words: &[&[u8]], out: &mut Sheet<W>) {
        match self {
            Trouble::Words | Trouble::Long | Trouble::Memory => {}
            Trouble::Bad(part) => {
                out.put("\"");
                out.put_bytes(word(words, part.index()));
                out.put("\" ");
            }
            _ => {
                out.put_bytes(word(words, 0));
                out.put(": ");
            }
        }
        out.put_line(self);
    }
}

// A word of a command; nothing where it has fewer.
fn word<'a>(words: &[&'a [u8]], index: usize) -> &'a [u8] {
    words.get(index).copied().unwrap_or(b"")
}

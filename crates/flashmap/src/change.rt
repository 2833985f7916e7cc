// The changes of an image: made in memory, written to a new file, and told.
use crate::image;
use crate::image::Image;
use shell::file;
use shell::sheet::Sheet;
use shell::trouble::Trouble;
use std::alloc::Global;
use std::io::Write;
use std::rt::Files;
use tool::{hex, number};

// The changed image in the place of the old one.
fn keep<R: Files + AllocGlobal>(rt: &R, image: &Image<'_>) -> Result<(), Trouble> {
    file::replace(rt, image.path, &image.bytes)
}

// The value that is typed; a line stands for the empty one.
fn value_of(alloc: Global, typed: &[u8]) -> Result<Vec<u8>, Trouble> {
    if let b"-" = typed {
        return Ok(Vec::new(alloc));
    }
    let mut value = vec![in alloc; 0u8; typed.len() / 2]?;
    hex::read(typed, &mut value)?;
    Ok(value)
}

/// A key gets the value that is typed.
pub fn store<R: Files + AllocGlobal, W: Write + Drop>(
    rt: &R,
    image: &mut Image<'_>,
    key: u32,
    typed: &[u8],
    out: &mut Sheet<W>,
) -> Result<(), Trouble> {
    let value = value_of(rt.alloc(), typed)?;
    let erased = image.store(key, &value)?;
    keep(rt, image)?;
    out.put_line(format_args!(
        "key {key} stored, length {}; pages erased: {erased}",
        value.len()
    ));
    Ok(())
}

/// A key is removed.
pub fn remove<R: Files + AllocGlobal, W: Write + Drop>(
    rt: &R,
    image: &mut Image<'_>,
    key: u32,
    out: &mut Sheet<W>,
) -> Result<(), Trouble> {
    if let Ok(None) = image.fetch(key) {
        out.put_line(format_args!("key {key} is not held; nothing was changed"));
        return Ok(());
    }
    let erased = image.remove(key)?;
    keep(rt, image)?;
    out.put_line(format_args!("key {key} removed; pages erased: {erased}"));
    Ok(())
}

/// All pages are erased.
pub fn erase<R: Files + AllocGlobal, W: Write + Drop>(
    rt: &R,
    image: &mut Image<'_>,
    out: &mut Sheet<W>,
) -> Result<(), Trouble> {
    let erased = image.erase()?;
    keep(rt, image)?;
    out.put_line(format_args!("all pages blank; pages erased: {erased}"));
    Ok(())
}

/// A new image of blank pages, where there is no file yet.
pub fn blank<R: Files + AllocGlobal, W: Write + Drop>(
    rt: &R,
    path: &[u8],
    page: u32,
    pages: u32,
    out: &mut Sheet<W>,
) -> Result<(), Trouble> {
    let len = number::product(page, pages);
    // no From leads from u32 to usize
    image::fits(page as usize, len)?;
    if len > image::IMAGE_BYTES as usize {
        return Err(Trouble::Large);
    }
    let bytes = vec![in rt.alloc(); 255u8; len]?;
    file::make(rt, path, &bytes, Trouble::Exists)?;
    out.put_line(format_args!("blank pages made: {pages}"));
    Ok(())
}

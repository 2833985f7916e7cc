// The items of an image: the newest of a key, all versions in ring order, the newest of each key.
use crate::image::{Image, Versions};
use shell::sheet::{Hex, Sheet};
use shell::trouble::Trouble;
use std::alloc::{AllocError, Global};
use std::io::Write;
use tool::last;

/// The newest value of a key.
pub fn fetch<W: Write + Drop>(
    image: &Image<'_>,
    key: u32,
    out: &mut Sheet<W>,
) -> Result<(), Trouble> {
    match image.fetch(key)? {
        Some(value) => out.put_line(format_args!("{} (length {})", Hex(value), value.len())),
        None => out.put_line("none"),
    }
    Ok(())
}

// A key, and its value's length and bytes.
fn put_item<W: Write + Drop>(key: u32, value: &[u8], out: &mut Sheet<W>) {
    out.put_line(format_args!("{key:>10}{:>7}  {}", value.len(), Hex(value)));
}

/// All versions in ring order, each with its page and its place.
pub fn walk<W: Write + Drop>(image: &mut Image<'_>, out: &mut Sheet<W>) -> Result<(), Trouble> {
    let start = image.start()?;
    out.put_line("page    place         key  bytes  value");
    for version in image.versions(start) {
        out.put(format_args!("{:>4}{:>9}  ", version.page, version.place));
        put_item(version.key, version.value, out);
    }
    Ok(())
}

// The keys of a walk, in room that need not grow.
fn collect_keys(alloc: Global, versions: Versions<'_>) -> Result<Vec<u32>, AllocError> {
    let mut keys = Vec::with_capacity(alloc, versions.room())?;
    for version in versions {
        keys.push(version.key)?;
    }
    Ok(keys)
}

/// The newest value of each key, in the order in which the walk lists them.
pub fn list<W: Write + Drop>(
    alloc: Global,
    image: &mut Image<'_>,
    out: &mut Sheet<W>,
) -> Result<(), Trouble> {
    let start = image.start()?;
    let versions = image.versions(start);
    let sound = image.is_sound();
    let keys = collect_keys(alloc, versions)?;
    let lasts = last::lasts(alloc, &keys)?;
    out.put_line("       key  bytes  value");
    for (version, last) in versions.zip(lasts) {
        if !last {
            continue;
        }
        // on a sound image a key's last item is its newest; else the map is asked
        if sound {
            put_item(version.key, version.value, out);
        } else if let Ok(Some(value)) = image.fetch(version.key) {
            put_item(version.key, value, out);
        }
    }
    Ok(())
}

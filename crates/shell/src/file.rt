// Whole files: read, made anew, put in the place of another.
use crate::trouble::{Deed, Reason, Trouble};
use std::alloc::Global;
use std::fs::{File, OpenFile, OpenOptions};
use std::io::{ErrorKind, Read, Write};
use std::rt::Files;
use std::{fs, io, str};

// What the system refused, and why. Where std itself had no memory for a deed, no system has a number for it.
fn refused(deed: Deed, e: io::Error) -> Trouble {
    if e.raw_os_error().is_none() && e.kind() == ErrorKind::OutOfMemory {
        return Trouble::Memory;
    }
    Trouble::System(deed, Reason::from(e))
}

// A path as std takes it: text in UTF-8.
fn text_of(path: &[u8]) -> io::Result<&str> {
    str::from_utf8(path).map_err(|_| io::Error::from(ErrorKind::InvalidFilename))
}

// The file at path, open for reading.
fn open<R: Files>(rt: &R, path: &[u8]) -> io::Result<R::File> {
    File::open(rt, text_of(path)?)
}

// The bytes of an open file, up to its end or so many. Their room is asked for once, with one more for the read that finds
// the end: room that grows is twice as large at last.
fn read_up_to(alloc: Global, file: impl Read + OpenFile + Drop, most: u64) -> io::Result<Vec<u8>> {
    let len = file.metadata().map_or(0, |data| data.len());
    let mut bytes = Vec::with_capacity(alloc, len.saturating_add(1).min(most) as usize)?;
    file.take(most).read_to_end(&mut bytes)?;
    Ok(bytes)
}

/// The whole file at path, which may have `limit` bytes.
pub fn load<R: Files + AllocGlobal>(rt: &R, path: &[u8], limit: u32) -> Result<Vec<u8>, Trouble> {
    let file = open(rt, path).map_err(|e| refused(Deed::Open, e))?;
    let most = u64::from(limit) + 1;
    let bytes = read_up_to(rt.alloc(), file, most).map_err(|e| refused(Deed::Read, e))?;
    // no From leads from usize to u64
    if bytes.len() as u64 == most {
        return Err(Trouble::Large);
    }
    Ok(bytes)
}

// A new file at path, open for writing.
fn create<R: Files>(rt: &R, path: &[u8]) -> io::Result<R::File> {
    OpenOptions::new()
        .write(true)
        .create_new(true)
        .open(rt, text_of(path)?)
}

// The bytes down to the device.
fn save(file: &mut (impl Write + OpenFile), bytes: &[u8]) -> io::Result<()> {
    file.write_all(bytes)?;
    file.sync_all()
}

// The file at path goes, where it can.
fn remove(rt: &impl Files, path: &[u8]) {
    if let Ok(text) = text_of(path) {
        let _ = fs::remove_file(rt, text);
    }
}

/// A new file with these bytes; `taken` where there is one of this name. A file that can't be written whole goes
/// again.
pub fn make(rt: &impl Files, path: &[u8], bytes: &[u8], taken: Trouble) -> Result<(), Trouble> {
    let mut file = match create(rt, path) {
        Ok(file) => file,
        Err(e) if e.kind() == ErrorKind::AlreadyExists => return Err(taken),
        Err(e) => return Err(refused(Deed::Make, e)),
    };
    if let Err(e) = save(&mut file, bytes) {
        remove(rt, path);
        return Err(refused(Deed::Write, e));
    }
    Ok(())
}

// A file takes the name path.
fn rename(rt: &impl Files, from: &[u8], path: &[u8]) -> io::Result<()> {
    fs::rename(rt, text_of(from)?, text_of(path)?)
}

/// The bytes in the place of the file at path. They go to a file with .new after its name, so the old file stays until
/// the new one is whole.
pub fn replace<R: Files + AllocGlobal>(rt: &R, path: &[u8], bytes: &[u8]) -> Result<(), Trouble> {
    let mut other = Vec::from_slice(rt.alloc(), path)?;
    other.extend_from_slice(b".new")?;
    make(rt, &other, bytes, Trouble::Halfway)?;
    if let Err(e) = rename(rt, &other, path) {
        remove(rt, &other);
        return Err(refused(Deed::Rename, e));
    }
    Ok(())
}

#[cfg(test)]
mod tests {
    use super::*;

    #[test]
    fn loads_up_to_a_limit(rt: HostRuntime) {
        assert!(rt; load(&rt, b"/dev/null", 0).is_ok_and(|bytes| bytes.is_empty()));
        assert!(rt; matches!(load(&rt, b"/dev/zero", 10), Err(Trouble::Large)));
        assert!(rt;
            matches!(
                load(&rt, b"/", 10),
                Err(Trouble::System(Deed::Read, Reason::Folder))
            )
        );
        assert!(rt;
            matches!(
                load(&rt, b"/none", 10),
                Err(Trouble::System(Deed::Open, Reason::NoFile))
            )
        );
        assert!(rt;
            matches!(
                load(&rt, b"\xff", 10),
                Err(Trouble::System(Deed::Open, Reason::Other))
            )
        );
    }
}

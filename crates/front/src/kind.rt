// What a name leads to: asked before a file is opened, since opening a FIFO waits for its other end, and a device may
// wait or never end. Between the question and the opening another process may put something else there. A path is UTF-8
// text here, so a name that is not leads to nothing.
use std::os::unix::fs::MetadataExt;
use std::rt::Files;
use std::{fs, io};

// A path of Linux has less bytes.
const PATH_MAX: usize = 4096;
// Linux's numbers of two errors.
const INVALID: i32 = 22;

const TOO_LONG: i32 = 36;
// The part of a mode that says the kind of a file, and two kinds.
const KINDS: u32 = 0o170000;

const FOLDER: u32 = 0o040000;

const FILE: u32 = 0o100000;

// A file that ends, a folder, a FIFO, device or socket, or what is not known.
#[derive(Clone, Copy)]
pub enum Kind {
    File,
    Folder,
    Other,
    Unknown,
}

// The kind of the file of this name, links followed. A name that is too long for a path is cut short, and one with a 0
// in it ends there: no such name can be opened.
pub(crate) fn kind_of(rt: &impl Files, name: &[u8]) -> Kind {
    let end = name.len().min(PATH_MAX - 1);
    let path = &name[..end];
    let n = path.iter().position(|byte| *byte == 0).unwrap_or(end);
    match std::str::from_utf8(&path[..n]) {
        Ok(text) => kind_at(rt, text),
        Err(_) => Kind::Unknown,
    }
}

fn kind_at(rt: &impl Files, path: &str) -> Kind {
    match fs::metadata(rt, path) {
        Ok(known) => kind_in(known.mode()),
        Err(_) => Kind::Unknown,
    }
}

// The kind in a mode of Linux. Something with a mode of no kind can be opened, as what is not known.
fn kind_in(mode: u32) -> Kind {
    match mode & KINDS {
        0 => Kind::Unknown,
        FOLDER => Kind::Folder,
        FILE => Kind::File,
        _ => Kind::Other,
    }
}

// The path of this name, or why it can be none.
pub(crate) fn path_of(name: &[u8]) -> io::Result<&str> {
    if name.len() >= PATH_MAX {
        return Err(io::Error::from_raw_os_error(TOO_LONG));
    }
    if name.contains(&0) {
        return Err(io::Error::from_raw_os_error(INVALID));
    }
    std::str::from_utf8(name).map_err(|_| io::Error::new(
        io::ErrorKind::InvalidFilename,
        "its name is not UTF-8",
    ))
}

// The files that a program's arguments name.
use std::fs::File;
use std::rt::Files;
use std::{io, str};

// Opens the file of this name for reading.
pub fn open<R: Files>(files: &R, name: &[u8]) -> io::Result<R::File> {
    match str::from_utf8(name) {
        Ok(path) => File::open(files, path),
        Err(_) => Err(io::Error::new(
            io::ErrorKind::InvalidFilename,
            "the name is no text in UTF-8",
        )),
    }
}

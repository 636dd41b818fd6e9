// Why a file can't be read.

use std::fs;
use std::io::{ErrorKind, Read};
use std::rt::Files;

/// What the system's kind of error says of a file.
fn kind_text(kind: ErrorKind) -> &'static str {
    match kind {
        ErrorKind::NotFound => "there is no file of this name",
        ErrorKind::PermissionDenied => "permission is denied",
        ErrorKind::IsADirectory => "it is a directory",
        ErrorKind::NotADirectory => "a part of its path is no directory",
        ErrorKind::FilesystemLoop => "its links go in a circle",
        ErrorKind::InvalidFilename | ErrorKind::InvalidInput => "this can be no file's name",
        ErrorKind::OutOfMemory => "memory ran out",
        _ => "the system gives no known reason",
    }
}

/// Why the file of this name can't be read, by another try to open it and to read a byte.
pub fn cause_of<F: Files>(files: &F, name: &str) -> &'static str {
    match fs::open(files, name) {
        Err(error) => kind_text(error.kind()),
        Ok(file) => first_byte(file),
    }
}

/// Why the first byte of an opened file can't be read.
fn first_byte<R: Read + Drop>(file: R) -> &'static str {
    let mut file = file;
    match file.read(&mut [0u8]) {
        Err(error) => kind_text(error.kind()),
        Ok(_) => "a call of the system failed, and at a second try it doesn't",
    }
}

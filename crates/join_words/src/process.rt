// The words that a process was started with.

use std::alloc::AllocError;
use std::rt::Env;
use std::{env, io};

/// The words of the command line, the program's name first. Words of which one isn't UTF-8 have no
/// match, and are taken as none.
pub fn command_words<V: Env + AllocGlobal>(process: &V) -> Result<Vec<String>, AllocError> {
    let mut words = Vec::new(process.alloc());
    match env::args(process) {
        Ok(args) => {
            for word in args {
                words.push(word)?;
            }
        }
        Err(error) if error.kind() == io::ErrorKind::OutOfMemory => return Err(AllocError),
        Err(_) => {}
    }
    Ok(words)
}

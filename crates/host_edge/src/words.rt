//! The words of the command line.

use std::alloc::AllocError;
use std::env::{self, Env, FillError};
use std::io::ErrorKind;

/// The words. In one that isn't text, each byte that is of none is the replacement character, so that it is a wrong word at
/// its own index.
pub fn words_of<R: Env + AllocGlobal>(rt: &R) -> Result<Vec<String>, AllocError> {
    let alloc = rt.alloc();
    let mut words = Vec::new(alloc);
    match env::args(rt) {
        Ok(args) => {
            for word in args.skip(1) {
                words.push(word)?;
            }
        }
        Err(error) if error.kind() == ErrorKind::OutOfMemory => return Err(AllocError),
        Err(_) => {
            let mut word = [0u8; 4096];
            for i in 1..usize::MAX {
                let text = match rt.arg(i, &mut word) {
                    Ok(count) => String::from_utf8_lossy(alloc, &word[..count])?,
                    // No form has a word of this length.
                    Err(FillError::TooLong) => String::from_str(alloc, "\u{fffd}")?,
                    Err(_) => break,
                };
                words.push(text)?;
            }
        }
    }
    Ok(words)
}

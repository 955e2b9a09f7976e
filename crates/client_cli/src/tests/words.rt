//! Words of a command line.

use std::alloc::{AllocError, Global};

/// The words of a line, which a blank parts. Two blanks have an empty word between them.
pub(super) fn words_of(alloc: Global, line: &str) -> Result<Vec<String>, AllocError> {
    let mut words = Vec::new(alloc);
    if !line.is_empty() {
        for word in line.split(' ') {
            words.push(String::from_str(alloc, word)?)?;
        }
    }
    Ok(words)
}

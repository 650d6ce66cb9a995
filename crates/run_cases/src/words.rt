//! The words of a command line, as a line of a case has them.
use std::alloc::{AllocError, Global};

/// The command's name, and behind it the words between blanks and those between two `'`, which may have blanks; `None` where a `'` has no other.
pub fn read_words<'t>(alloc: Global, line: &'t str) -> Result<Option<Vec<&'t str>>, AllocError> {
    let mut words = Vec::new(alloc);
    words.push("function")?;
    let mut rest = line;
    for _ in 0..=line.len() {
        let Some((front, behind)) = rest.split_once("'") else {
            push_words(&mut words, rest)?;
            return Ok(Some(words));
        };
        let Some((quoted, more)) = behind.split_once("'") else {
            return Ok(None);
        };
        push_words(&mut words, front)?;
        words.push(quoted)?;
        rest = more;
    }
    Ok(None)
}

/// Adds the words between blanks.
fn push_words<'t>(words: &mut Vec<&'t str>, text: &'t str) -> Result<(), AllocError> {
    for word in text.split_whitespace() {
        words.push(word)?;
    }
    Ok(())
}

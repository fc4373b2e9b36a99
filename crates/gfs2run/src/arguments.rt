// The words of the command line, which are bytes: the system asks for no text.
use std::alloc::{AllocError, Global};
use std::env::FillError;
use std::rt::Env;

// The longest word that Linux hands to a program has fewer bytes.
const LONGEST: usize = 1 << 17;

// The word at this place, in a buffer of so many bytes.
fn word_within(
    rt: &impl Env,
    alloc: Global,
    place: usize,
    size: usize,
) -> Result<Result<Vec<u8>, FillError>, AllocError> {
    let mut word = vec![in alloc; 0; size]?;
    match rt.arg(place, &mut word) {
        Ok(count) => {
            word.truncate(count);
            Ok(Ok(word))
        }
        Err(fault) => Ok(Err(fault)),
    }
}

// The word at this place, if there is one.
fn word_at(rt: &impl Env, alloc: Global, place: usize) -> Result<Option<Vec<u8>>, AllocError> {
    for size in [256, 4096, LONGEST] {
        match word_within(rt, alloc, place, size)? {
            Ok(word) => return Ok(Some(word)),
            Err(FillError::TooLong) => {}
            Err(FillError::NotPresent) => return Ok(None),
        }
    }
    Ok(None)
}

/// All words, that of the program first.
pub fn arguments(rt: &impl Env, alloc: Global) -> Result<Vec<Vec<u8>>, AllocError> {
    let mut words = Vec::new(alloc);
    for place in 0..usize::MAX {
        let Some(word) = word_at(rt, alloc, place)? else {
            break;
        };
        words.push(word)?;
    }
    Ok(words)
}

/// The words as text. What is no text in a word becomes U+FFFD, which stands in no word that a command line may have, so
/// that word is a wrong one, at its place.
pub fn texts(alloc: Global, words: &[Vec<u8>]) -> Result<Vec<String>, AllocError> {
    let mut texts = Vec::with_capacity(alloc, words.len())?;
    for word in words {
        texts.push(String::from_utf8_lossy(alloc, word)?)?;
    }
    Ok(texts)
}

//! The words of a run.
ghost use Rattle.std.specs.Prelude.{◌≡◌, ◌≤◌, length, map, string_bytes, vec_items, IfOk};
ghost use Rattle.std.specs.Option.{option_map};
ghost use Rattle.cckd_host.specs.Words.{kept_word, IsKeptAt};

use crate::source::WordSource;
use std::alloc::{AllocError, Global};
use std::env::FillError;
use std::str;

/// A word that may stand somewhere has at most 255 bytes.
const WORD_ROOM: usize = 255;

/// The word in a buffer, or an empty one where it isn't text.
#[tactic(auto, using(crate::proofs::WordLemmas::kept_whole, crate::proofs::WordLemmas::kept_no_text))]
fn text_of(alloc: Global, bytes: &[u8]) -> Result<String, AllocError>
    requires { length bytes.now ≤ 255 }
    ensures { IfOk result (λ text. string_bytes text ≡ kept_word bytes.now) }
{
    match str::from_utf8(bytes) {
        Ok(word) => String::from_str(alloc, word),
        Err(_) => Ok(String::new(alloc)),
    }
}

/// The word of this number as a run gets it, and None behind the last.
#[tactic(auto, using(crate::proofs::WordLemmas::kept_too_long))]
fn kept<W: WordSource>(
    source: &W,
    alloc: Global,
    number: usize,
) -> Result<Option<String>, AllocError>
    ensures { W.tells → IfOk result (λ word. IsKeptAt (W.words source.now) number (option_map string_bytes word)) }
{
    let mut room = [0; WORD_ROOM];
    match source.word(number, &mut room) {
        Ok(len) => Ok(Some(text_of(alloc, &room[..len])?)),
        Err(FillError::TooLong) => Ok(Some(String::new(alloc))),
        Err(FillError::NotPresent) => Ok(None),
    }
}

/// All words, each in its place. A word that is no text, or too long to stand anywhere, is made empty, and an
/// empty word may stand nowhere either.
#[tactic(auto, using(crate::proofs::WordLemmas::one_more, crate::proofs::WordLemmas::no_more))]
pub fn words_of<W: WordSource>(source: &W, alloc: Global) -> Result<Vec<String>, AllocError>
    ensures { W.tells → IfOk result (λ words. map string_bytes (vec_items words) ≡ map kept_word (W.words source.now)) }
{
    let mut words = Vec::new(alloc);
    for number in 0..usize::MAX {
        match kept(source, alloc, number)? {
            Some(word) => words.push(word)?,
            None => return Ok(words),
        }
    }
    // No memory holds so many.
    Err(AllocError)
}

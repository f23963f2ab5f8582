//! The words of a run, and the disk that they name.

ghost use Rattle.std.specs.Prelude.{◌≡◌, ◌≤◌, ◌<◌, ◌^◌, ℕ, map, string_bytes, decimal, MatchResult, Ok, Err, IfOk, IfSome, IfNone, IsTrue};
ghost use Rattle.cckd_top.specs.Words.{named_disk, disk_in, disk_limited, is_limit, limit_in, is_file_word};

use cckd_base::FORMAT_LIMIT;
use itoa::Buffer;

/// The name of the command that serves a script.
const RUN_COMMAND: &str = "cckdrun";

/// The option in front of a limit.
const LIMIT_OPTION: &str = "-limit";

/// The least limit.
const LEAST_LIMIT: u32 = 4096;

/// The disk that words name: the file of its base, and how many bytes each file may have.
#[derive(Clone, Copy)]
pub struct Named<'a> {
    pub file: &'a str,
    pub limit: u32,
}

/// The number that a word spells in decimal digits, without a sign or a leading zero.
fn number_in(word: &str) -> Option<u32>
    ensures spelled { IfSome result (λ n. word.now ≡ decimal n) }
    ensures none { IfNone result ((n : ℕ) → n < 2 ^ 32 → ¬ (word.now ≡ decimal n)) }
{
    let Ok(number) = word.parse::<u32>() else {
        return None;
    };
    let mut buffer = Buffer::new();
    if buffer.format(number) == word {
        Some(number)
    } else {
        None
    }
}

/// Whether a number is a limit.
fn is_limit(number: u32) -> bool
    ensures { result ≡ is_limit number }
{
    number >= LEAST_LIMIT && number <= FORMAT_LIMIT && number % 8 == 0
}

/// The limit that a word spells.
fn limit_in(word: &str) -> Option<u32>
    ensures { result ≡ limit_in word.now }
{
    let Some(number) = number_in(word) else {
        return None;
    };
    if is_limit(number) { Some(number) } else { None }
}

/// Whether a word may name a file.
fn names_file(word: &str) -> bool
    ensures { result ≡ is_file_word word.now }
{
    let bytes = word.as_bytes();
    !(bytes.is_empty() || bytes.len() > 255 || bytes[0] == b'-')
}

/// The disk of the one word that is left, of which this is the number.
fn disk_in(limit: u32, number: u64, words: &[String]) -> Result<Named<'_>, u64>
    requires few { number ≤ 3 }
    ensures disk { MatchResult result (λ d. disk_in limit number (map string_bytes words.now) ≡ Ok (record { file = d.file.now; limit = d.limit }))
        (λ n. disk_in limit number (map string_bytes words.now) ≡ Err n) }
    ensures named { IfOk result (λ d. IsTrue (is_file_word d.file.now)) }
    ensures limit { IfOk result (λ d. d.limit ≡ limit) }
{
    let [file, more @ ..] = words else {
        return Err(number);
    };
    let file = file.as_str();
    if !names_file(file) {
        return Err(number);
    }
    if more.is_empty() {
        Ok(Named { file, limit })
    } else {
        Err(number + 1)
    }
}

/// The disk of the words behind the option.
fn limited_disk(words: &[String]) -> Result<Named<'_>, u64>
    ensures disk { MatchResult result (λ d. disk_limited (map string_bytes words.now) ≡ Ok (record { file = d.file.now; limit = d.limit }))
        (λ n. disk_limited (map string_bytes words.now) ≡ Err n) }
    ensures named { IfOk result (λ d. IsTrue (is_file_word d.file.now)) }
    ensures limit { IfOk result (λ d. d.limit ≤ FORMAT_LIMIT) }
{
    let [number, rest @ ..] = words else {
        return Err(2);
    };
    match limit_in(number.as_str()) {
        Some(limit) => disk_in(limit, 3, rest),
        None => Err(2),
    }
}

/// The disk that the words name, or the number of the first wrong word, counted from 0.
pub fn named_disk(words: &[String]) -> Result<Named<'_>, u64>
    ensures disk { MatchResult result (λ d. named_disk (map string_bytes words.now) ≡ Ok (record { file = d.file.now; limit = d.limit }))
        (λ n. named_disk (map string_bytes words.now) ≡ Err n) }
    ensures named { IfOk result (λ d. IsTrue (is_file_word d.file.now)) }
    ensures limit { IfOk result (λ d. d.limit ≤ FORMAT_LIMIT) }
{
    let [command, rest @ ..] = words else {
        return Err(0);
    };
    if command.as_str() != RUN_COMMAND {
        return Err(0);
    }
    let [first, others @ ..] = rest else {
        return Err(1);
    };
    if first.as_str() == LIMIT_OPTION {
        limited_disk(others)
    } else {
        disk_in(FORMAT_LIMIT, 1, rest)
    }
}

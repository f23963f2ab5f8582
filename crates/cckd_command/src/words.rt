//! Words that commands have in common.

ghost use Rattle.std.specs.Prelude.{◌≡◌};
ghost use Rattle.cckd_command.specs.Words.{is_file_word};

/// Whether a word may name a file: 1 to 255 bytes, which don't begin with `-`.
pub fn names_file(word: &str) -> bool
    ensures { result ≡ is_file_word word.now }
{
    let bytes = word.as_bytes();
    !(bytes.is_empty() || bytes.len() > 255 || bytes[0] == b'-')
}

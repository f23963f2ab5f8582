//! Texts of words, numbers and bytes, put into a buffer.

ghost use Rattle.std.specs.Prelude.{◌≡◌, ◌+◌, ◌*◌, ◌≤◌, length, decimal};
ghost use Rattle.hex.specs.Hex.{encode_lower};
ghost use Rattle.cckd_base.specs.Put.{IsPut};
ghost use Rattle.cckd_script.specs.Phrase.{hex_text, part_of, part_text, part_room, parts_of, parts_text, parts_room, phrase};

use cckd_base::put_bytes;
use itoa::Buffer;

/// So many bytes hold the digits of any number.
pub const NUMBER_ROOM: usize = 20;

/// A part of a text, before which a blank stands.
#[derive(Clone, Copy)]
pub enum Part<'a> {
    /// Words as they stand.
    Words(&'a [u8]),
    /// A number in decimal digits.
    Number(u64),
    /// A number with this mark behind it.
    Marked(u64, u8),
    /// Bytes as two hexadecimal digits each, and `-` for no bytes.
    Hex(&'a [u8]),
}

/// Puts a number as decimal digits, of which it has at most 20.
pub fn put_number(line: &mut [u8], at: usize, number: u64) -> usize
    requires { at + NUMBER_ROOM ≤ length line.old }
    ensures put { IsPut at result (decimal number) line.old line.new }
    ensures short { result ≤ at + NUMBER_ROOM }
{
    let mut buffer = Buffer::new();
    put_bytes(line, at, buffer.format(number).as_bytes())
}

/// Writes bytes as two hexadecimal digits each.
fn encode_hex(bytes: &[u8], digits: &mut [u8])
    requires { length digits.old ≡ 2 * length bytes.now }
    ensures { digits.new ≡ encode_lower bytes.now }
{
    let _ = hex::encode_to_slice(bytes, digits);
}

/// Puts bytes as two hexadecimal digits each, and `-` for no bytes.
fn put_hex(line: &mut [u8], at: usize, bytes: &[u8]) -> usize
    requires { at + 2 * length bytes.now + 1 ≤ length line.old }
    ensures put { IsPut at result (hex_text bytes.now) line.old line.new }
    ensures short { result ≤ at + 2 * length bytes.now + 1 }
{
    if bytes.is_empty() {
        return put_bytes(line, at, b"-");
    }
    let end = at + 2 * bytes.len();
    encode_hex(bytes, &mut line[at..end]);
    end
}

/// Puts one part.
#[tactic(auto, using(cckd_base::proofs::PutLemmas::puts_join))]
fn put_part(line: &mut [u8], at: usize, part: Part) -> usize
    requires { at + part_room (part_of part) ≤ length line.old }
    ensures put { IsPut at result (part_text (part_of part.entry)) line.old line.new }
    ensures short { result ≤ at + part_room (part_of part.entry) }
{
    match part {
        Part::Words(words) => put_bytes(line, at, words),
        Part::Number(number) => put_number(line, at, number),
        Part::Marked(number, mark) => {
            let end = put_number(line, at, number);
            put_bytes(line, end, &[mark])
        }
        Part::Hex(bytes) => put_hex(line, at, bytes),
    }
}

/// Puts words at `at` and parts behind them, and answers where they end.
#[tactic(auto, using(cckd_base::proofs::PutLemmas::puts_join))]
pub fn put_phrase(line: &mut [u8], at: usize, words: &[u8], parts: &[Part]) -> usize
    requires { at + length words.now + parts_room (parts_of parts.now) ≤ length line.old }
    ensures put { IsPut at result (phrase words.now (parts_of parts.now)) line.old line.new }
    ensures short { result ≤ at + length words.now + parts_room (parts_of parts.now) }
{
    let mut end = put_bytes(line, at, words);
    for part in parts {
        let from = put_bytes(line, end, b" ");
        end = put_part(line, from, *part);
    }
    end
}

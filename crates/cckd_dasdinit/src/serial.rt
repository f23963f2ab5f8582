//! The serial of a volume, in EBCDIC.

ghost use Rattle.std.specs.Prelude.{◌≡◌, ◌≤◌, IfSome, IfNone, map, length, true, false};
ghost use Rattle.cckd_base.specs.Put.{IsPut};
ghost use Rattle.cckd_dasdinit.specs.Serial.{is_serial_character, in_ebcdic, are_characters, serial_named};

use cckd_base::put_bytes;

/// A blank in EBCDIC.
const BLANK: u8 = 0x40;

/// A character of a serial in EBCDIC, where it may be one.
fn in_ebcdic(c: u8) -> Option<u8>
    ensures some { IfSome result (λ byte. (is_serial_character c ≡ true) × (byte ≡ in_ebcdic c)) }
    ensures none { IfNone result (is_serial_character c ≡ false) }
{
    match c {
        b'A'..=b'I' => Some(c - b'A' + 0xc1),
        b'J'..=b'R' => Some(c - b'J' + 0xd1),
        b'S'..=b'Z' => Some(c - b'S' + 0xe2),
        b'0'..=b'9' => Some(c - b'0' + 0xf0),
        b'@' => Some(0x7c),
        b'#' => Some(0x7b),
        b'$' => Some(0x5b),
        _ => None,
    }
}

/// Puts characters in EBCDIC to the front of a buffer. The answer is whether each may be one of a serial.
fn put_characters(word: &[u8], room: &mut [u8]) -> bool
    requires { length word.now ≤ length room.old }
    ensures answer { result ≡ are_characters word.now }
    ensures put { result ≡ true → IsPut 0 (length word.now) (map in_ebcdic word.now) room.old room.new }
{
    let mut end = 0;
    for c in word {
        let Some(byte) = in_ebcdic(*c) else {
            return false;
        };
        end = put_bytes(room, end, &[byte]);
    }
    true
}

/// The serial that a word names, of six bytes: 1 to 6 of A to Z, 0 to 9, `@`, `#` and `$`, filled with blanks on the right.
pub fn serial_named(word: &[u8]) -> Option<[u8; 6]>
    ensures { result ≡ serial_named word.now }
{
    if word.is_empty() || word.len() > 6 {
        return None;
    }
    let mut serial = [BLANK; 6];
    if put_characters(word, &mut serial) {
        Some(serial)
    } else {
        None
    }
}

//! The tokens of a line, one behind the other.

ghost use Rattle.std.specs.Prelude.{◌≡◌, ◌+◌, ◌<◌, ◌≤◌, ◌^◌, ◌∷◌, [], ℕ, true, false, length, drop, slice_range, decimal, position, IfSome, IfNone, IfOk, IfErr, OnOk};
ghost use Rattle.std.specs.List.{list_all};
ghost use Rattle.hex.specs.Hex.{is_hex_digit};
ghost use Rattle.cckd_script.specs.Lines.{tokens};
ghost use Rattle.cckd_script.specs.Grammar.{number, bytes, amount, given, value_of};
ghost use Rattle.cckd_script.specs.Inside.{is_blank, rest_tokens, values_behind, decoded, AreDigits, IsNumberBehind, AreDigitsBehind, IsAddressBehind, IsNoAddress, IsNone};

use crate::LINE_LIMIT;
use crate::parse::LineFault;
use cckd_base::Addr;
use itoa::Buffer;
use std::str;

/// A number that was read, and where its token ends.
#[derive(Clone, Copy)]
pub(crate) struct Number {
    pub value: u32,
    pub end: usize,
}

/// Hexadecimal digits that were read, and where their token ends.
#[derive(Clone, Copy)]
pub(crate) struct Digits<'a> {
    pub text: &'a [u8],
    pub end: usize,
}

/// An address that was read, and where its second token ends.
#[derive(Clone, Copy)]
pub(crate) struct Place {
    pub at: Addr,
    pub end: usize,
}

/// The number that a token of decimal digits spells, without a leading zero.
fn number_in(token: &[u8]) -> Option<u32>
    ensures spelled { IfSome result (λ n. token.now ≡ decimal n) }
    ensures none { IfNone result ((n : ℕ) → n < 2 ^ 32 → ¬ (token.now ≡ decimal n)) }
{
    let Ok(text) = str::from_utf8(token) else {
        return None;
    };
    let Ok(number) = text.parse::<u32>() else {
        return None;
    };
    let mut buffer = Buffer::new();
    if buffer.format(number).as_bytes() == token {
        Some(number)
    } else {
        None
    }
}

/// Whether a byte is a hexadecimal digit of either case.
fn is_digit(byte: u8) -> bool
    ensures { result ≡ is_hex_digit byte }
{
    matches!(byte, b'0'..=b'9' | b'a'..=b'f' | b'A'..=b'F')
}

/// Whether all bytes are such digits.
fn all_digits(token: &[u8]) -> bool
    ensures { result ≡ list_all is_hex_digit token.now }
{
    token.iter().all(|b| is_digit(*b))
}

/// Whether a token spells bytes in pairs of digits, at least `least` and at most `most`.
fn spells_bytes(token: &[u8], least: usize, most: usize) -> bool
    requires { 1 ≤ least }
    ensures yes { result ≡ true → AreDigits token.now least most }
    ensures no { result ≡ false → value_of (bytes least most) token.now ≡ None }
{
    let count = token.len() / 2;
    let is_even = token.len() % 2 == 0;
    is_even && least <= count && count <= most && all_digits(token)
}

/// Where the first blank of a text stands.
fn first_blank(text: &[u8]) -> Option<usize>
    ensures { result ≡ position is_blank text.now }
{
    text.iter().position(|b| *b == b' ')
}

/// Where the token that begins at a place of a line ends: at the next blank, or with the line.
pub(crate) fn token_end(line: &[u8], from: usize) -> usize
    requires { from ≤ length line.now }
    ensures begins { from ≤ result }
    ensures within { result ≤ length line.now }
    ensures cut { tokens (drop from line.now)
        ≡ slice_range line.now from result ∷ rest_tokens line.now result }
{
    match first_blank(&line[from..]) {
        Some(length) => from + length,
        None => line.len(),
    }
}

/// The number from `least` to `most` that a token spells.
fn number_from(token: &[u8], least: u32, most: u32) -> Option<u32>
    ensures read { IfSome result (λ n. value_of (number least most) token.now ≡ Some (amount n)) }
    ensures least_is { IfSome result (λ n. least ≤ n) }
    ensures most_is { IfSome result (λ n. n ≤ most) }
    ensures none { IfNone result (value_of (number least most) token.now ≡ None) }
{
    let number = number_in(token)?;
    if number < least || most < number {
        return None;
    }
    Some(number)
}

/// The number from `least` to `most` behind the token that ends at `end`.
pub(crate) fn number_behind(
    line: &[u8],
    end: usize,
    least: u32,
    most: u32,
) -> Result<Number, LineFault>
    requires short { length line.now ≤ LINE_LIMIT }
    requires within { end ≤ length line.now }
    ensures read { IfOk result (IsNumberBehind line.now end least most) }
    ensures fault { IfErr result (λ fault. IsNone line.now end (number least most) fault.column) }
{
    if end == line.len() {
        return Err(LineFault {
            column: end as u32 + 1,
        });
    }
    let from = end + 1;
    let end = token_end(line, from);
    match number_from(&line[from..end], least, most) {
        Some(value) => Ok(Number { value, end }),
        None => Err(LineFault {
            column: from as u32 + 1,
        }),
    }
}

/// The digits of at least `least` and at most `most` bytes behind the token that ends at `end`.
pub(crate) fn digits_behind<'a>(
    line: &'a [u8],
    end: usize,
    least: usize,
    most: usize,
) -> Result<Digits<'a>, LineFault>
    requires short { length line.now ≤ LINE_LIMIT }
    requires within { end ≤ length line.now }
    requires some { 1 ≤ least }
    ensures read { IfOk result (AreDigitsBehind line.now end least most) }
    ensures fault { IfErr result (λ fault. IsNone line.now end (bytes least most) fault.column) }
{
    if end == line.len() {
        return Err(LineFault {
            column: end as u32 + 1,
        });
    }
    let from = end + 1;
    let end = token_end(line, from);
    let text = &line[from..end];
    if spells_bytes(text, least, most) {
        Ok(Digits { text, end })
    } else {
        Err(LineFault {
            column: from as u32 + 1,
        })
    }
}

/// Cylinder and head behind the token that ends at `end`.
pub(crate) fn address_behind(line: &[u8], end: usize) -> Result<Place, LineFault>
    requires short { length line.now ≤ LINE_LIMIT }
    requires within { end ≤ length line.now }
    ensures read { IfOk result (IsAddressBehind line.now end) }
    ensures fault { IfErr result (λ fault. IsNoAddress line.now end fault.column) }
{
    let cylinder = number_behind(line, end, 0, 65_535)?;
    let head = number_behind(line, cylinder.end, 0, 65_535)?;
    let at = Addr {
        cyl: cylinder.value as u16,
        head: head.value as u16,
    };
    Ok(Place { at, end: head.end })
}

/// Whether nothing follows the token that ends at `end`.
pub(crate) fn ends_at(line: &[u8], end: usize) -> Result<(), LineFault>
    requires short { length line.now ≤ LINE_LIMIT }
    requires within { end ≤ length line.now }
    ensures ends { OnOk result (values_behind line.now end [] ≡ Ok []) }
    ensures fault { IfErr result (λ fault. values_behind line.now end [] ≡ Err fault.column) }
{
    if end < line.len() {
        Err(LineFault {
            column: end as u32 + 2,
        })
    } else {
        Ok(())
    }
}

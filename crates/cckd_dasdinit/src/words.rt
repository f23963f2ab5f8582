//! The words of `dasdinit -0 [-r] FILE DEVICE [VOLSER]`, and the base that they name.

ghost use Rattle.std.specs.Prelude.{◌≡◌, ◌≤◌, length, map, string_bytes, MatchResult, Ok, Err, None, IfOk, IsTrue};
ghost use Rattle.cckd_base.specs.Geometry.{IsGeometry};
ghost use Rattle.cckd_tools.specs.Label.{label_length};
ghost use Rattle.cckd_command.specs.Words.{is_file_word};
ghost use Rattle.cckd_dasdinit.specs.Words.{label_in, device_in, base_in, behind_plain, behind_raw, named_base};

use crate::serial::serial_named;
use cckd_base::{Geometry, geometry_of};
use cckd_command::names_file;

/// The name of the command.
const INIT_COMMAND: &str = "dasdinit";

/// The option that tracks are stored uncompressed.
const PLAIN_OPTION: &str = "-0";

/// The option that no label is written.
const RAW_OPTION: &str = "-r";

/// The base that words name.
#[derive(Clone, Copy)]
pub struct NewBase<'a> {
    /// The name of its file.
    pub file: &'a str,
    /// The name of its device, as `3390-1`.
    pub device: &'a str,
    /// The device's geometry.
    pub geometry: Geometry,
    /// The serial of its label in EBCDIC, if it gets one.
    pub label: Option<[u8; 6]>,
}

/// The base with the label that it wants, of which the serial is the one word that is left.
fn label_in<'a>(
    raw: bool,
    number: u64,
    base: NewBase<'a>,
    words: &[String],
) -> Result<NewBase<'a>, u64>
    requires few { number ≤ 6 }
    requires bare { base.label ≡ None }
    ensures base { MatchResult result
        (λ b. label_in raw number (record { file = base.entry.file.now; device = base.entry.device.now; geometry = base.entry.geometry; label = None }) (map string_bytes words.now)
        ≡ Ok (record { file = b.file.now; device = b.device.now; geometry = b.geometry; label = b.label }))
        (λ n. label_in raw number (record { file = base.entry.file.now; device = base.entry.device.now; geometry = base.entry.geometry; label = None }) (map string_bytes words.now) ≡ Err n) }
    ensures file { IfOk result (λ b. b.file.now ≡ base.entry.file.now) }
    ensures device { IfOk result (λ b. b.device.now ≡ base.entry.device.now) }
    ensures geometry { IfOk result (λ b. b.geometry ≡ base.entry.geometry) }
{
    let [word, more @ ..] = words else {
        return if raw { Ok(base) } else { Err(number) };
    };
    if raw {
        return Err(number);
    }
    let Some(serial) = serial_named(word.as_str().as_bytes()) else {
        return Err(number);
    };
    if more.is_empty() {
        Ok(NewBase {
            file: base.file,
            device: base.device,
            geometry: base.geometry,
            label: Some(serial),
        })
    } else {
        Err(number + 1)
    }
}

/// The base of a file, whose device is the next word.
fn device_in<'a>(
    raw: bool,
    number: u64,
    file: &'a str,
    words: &'a [String],
) -> Result<NewBase<'a>, u64>
    requires few { number ≤ 5 }
    ensures base { MatchResult result
        (λ b. device_in raw number file.now (map string_bytes words.now) ≡ Ok (record { file = b.file.now; device = b.device.now; geometry = b.geometry; label = b.label }))
        (λ n. device_in raw number file.now (map string_bytes words.now) ≡ Err n) }
    ensures file { IfOk result (λ b. b.file.now ≡ file.now) }
    ensures geometry { IfOk result (λ b. IsGeometry b.geometry) }
    ensures label { IfOk result (λ b. label_length ≤ b.geometry.track_size) }
    ensures short { IfOk result (λ b. length b.device.now ≤ 6) }
{
    let [device, rest @ ..] = words else {
        return Err(number);
    };
    let device = device.as_str();
    let Some(geometry) = geometry_of(device.as_bytes()) else {
        return Err(number);
    };
    let base = NewBase {
        file,
        device,
        geometry,
        label: None,
    };
    label_in(raw, number + 1, base, rest)
}

/// The base whose file is the next word.
fn base_in(raw: bool, number: u64, words: &[String]) -> Result<NewBase<'_>, u64>
    requires few { number ≤ 4 }
    ensures base { MatchResult result
        (λ b. base_in raw number (map string_bytes words.now) ≡ Ok (record { file = b.file.now; device = b.device.now; geometry = b.geometry; label = b.label }))
        (λ n. base_in raw number (map string_bytes words.now) ≡ Err n) }
    ensures file { IfOk result (λ b. IsTrue (is_file_word b.file.now)) }
    ensures geometry { IfOk result (λ b. IsGeometry b.geometry) }
    ensures label { IfOk result (λ b. label_length ≤ b.geometry.track_size) }
    ensures short { IfOk result (λ b. length b.device.now ≤ 6) }
{
    let [file, rest @ ..] = words else {
        return Err(number);
    };
    let file = file.as_str();
    if names_file(file) {
        device_in(raw, number + 1, file, rest)
    } else {
        Err(number)
    }
}

/// The base of the words behind the option `-0`.
fn behind_plain(words: &[String]) -> Result<NewBase<'_>, u64>
    ensures base { MatchResult result
        (λ b. behind_plain (map string_bytes words.now) ≡ Ok (record { file = b.file.now; device = b.device.now; geometry = b.geometry; label = b.label }))
        (λ n. behind_plain (map string_bytes words.now) ≡ Err n) }
    ensures file { IfOk result (λ b. IsTrue (is_file_word b.file.now)) }
    ensures geometry { IfOk result (λ b. IsGeometry b.geometry) }
    ensures label { IfOk result (λ b. label_length ≤ b.geometry.track_size) }
    ensures short { IfOk result (λ b. length b.device.now ≤ 6) }
{
    let [word, rest @ ..] = words else {
        return Err(2);
    };
    if word.as_str() == RAW_OPTION {
        base_in(true, 3, rest)
    } else {
        base_in(false, 2, words)
    }
}

/// The base of the words behind the option `-r`, where the other one has to come.
fn behind_raw(words: &[String]) -> Result<NewBase<'_>, u64>
    ensures base { MatchResult result
        (λ b. behind_raw (map string_bytes words.now) ≡ Ok (record { file = b.file.now; device = b.device.now; geometry = b.geometry; label = b.label }))
        (λ n. behind_raw (map string_bytes words.now) ≡ Err n) }
    ensures file { IfOk result (λ b. IsTrue (is_file_word b.file.now)) }
    ensures geometry { IfOk result (λ b. IsGeometry b.geometry) }
    ensures label { IfOk result (λ b. label_length ≤ b.geometry.track_size) }
    ensures short { IfOk result (λ b. length b.device.now ≤ 6) }
{
    let [word, rest @ ..] = words else {
        return Err(2);
    };
    if word.as_str() == PLAIN_OPTION {
        base_in(true, 3, rest)
    } else {
        Err(2)
    }
}

/// The base that the words name, or the number of the first wrong word, counted from 0, or of the missing one.
pub fn named_base(words: &[String]) -> Result<NewBase<'_>, u64>
    ensures base { MatchResult result
        (λ b. named_base (map string_bytes words.now) ≡ Ok (record { file = b.file.now; device = b.device.now; geometry = b.geometry; label = b.label }))
        (λ n. named_base (map string_bytes words.now) ≡ Err n) }
    ensures file { IfOk result (λ b. IsTrue (is_file_word b.file.now)) }
    ensures geometry { IfOk result (λ b. IsGeometry b.geometry) }
    ensures label { IfOk result (λ b. label_length ≤ b.geometry.track_size) }
    ensures short { IfOk result (λ b. length b.device.now ≤ 6) }
{
    let [command, rest @ ..] = words else {
        return Err(0);
    };
    if command.as_str() != INIT_COMMAND {
        return Err(0);
    }
    let [first, others @ ..] = rest else {
        return Err(1);
    };
    let first = first.as_str();
    if first == PLAIN_OPTION {
        behind_plain(others)
    } else if first == RAW_OPTION {
        behind_raw(others)
    } else {
        Err(1)
    }
}

ghost use Rattle.std.specs.Prelude.{[]};

use crate::{WordSource, run_from, words_of};
use cckd_memory::MemoryStage;
use std::alloc::Global;
use std::env::FillError;
use std::process::Abort;
use std::test::Fail;

/// These words, which are compared as the tests run, and not told to proofs.
#[derive(Drop)]
struct Given<'a> {
    words: &'a [&'a [u8]],
}

impl WordSource for Given<'_> {
    ghost tells = { ⊥ };

    ghost words = { λ _. [] };

    fn word(&self, number: usize, room: &mut [u8]) -> Result<usize, FillError> {
        let word = self.words.get(number).ok_or(FillError::NotPresent)?;
        if word.len() > room.len() {
            return Err(FillError::TooLong);
        }
        room[..word.len()].copy_from_slice(word);
        Ok(word.len())
    }
}

/// Compares what the words behind the program's name become.
fn are_kept_as(rt: &impl Abort, alloc: Global, given: &[&[u8]], kept: &[&str]) -> Result<(), Fail> {
    let words = words_of(&Given { words: given }, alloc)?;
    assert_eq!(rt; words.len(), kept.len());
    for (word, wanted) in words.iter().zip(kept) {
        assert_eq!(rt; word.as_str(), *wanted);
    }
    Ok(())
}

#[test]
fn words_keep_their_places(rt: HostRuntime) -> Result<(), Fail> {
    let alloc = rt.alloc();
    let longest = [b'v'; 255];
    let too_long = [b'v'; 256];
    are_kept_as(&rt, alloc, &[], &[])?;
    are_kept_as(&rt, alloc, &[b"cckdrun", b"v"], &["cckdrun", "v"])?;
    are_kept_as(&rt, alloc, &[b"", b"\xc3\xa9", b""], &["", "é", ""])?;
    are_kept_as(&rt, alloc, &[b"a", b"\xff", b"b"], &["a", "", "b"])?;
    are_kept_as(&rt, alloc, &[b"a", &too_long, b"b"], &["a", "", "b"])?;
    let text = str::from_utf8(&longest).or(Err("no text"))?;
    are_kept_as(&rt, alloc, &[&longest, b"b"], &[text, "b"])
}

/// Compares what a run prints and its status, where no file is there.
fn ends(
    rt: &impl Abort,
    alloc: Global,
    words: &[&[u8]],
    output: &str,
    status: u8,
) -> Result<(), Fail> {
    let stage = MemoryStage::new(alloc, &[], b"", &[])?;
    let (stage, code) = run_from(stage, alloc, &Given { words });
    assert_eq!(rt; stage.output(), output.as_bytes());
    assert_eq!(rt; code, status);
    Ok(())
}

#[test]
fn the_status_is_handed_on(rt: HostRuntime) -> Result<(), Fail> {
    let alloc = rt.alloc();
    ends(&rt, alloc, &[], "bad words at 0\n", 2)?;
    let absent: [&[u8]; 2] = [b"cckdrun", b"v"];
    ends(&rt, alloc, &absent, "refused: slot 0 not a CCKD image\n", 3)?;
    let raw: [&[u8]; 5] = [b"dasdinit", b"-0", b"-r", b"v", b"2311"];
    let made = "made 2311: 200 cylinders, 10 heads, 8 groups, 1056 bytes\n";
    ends(&rt, alloc, &raw, made, 0)?;
    ends(&rt, alloc, &raw[..4], "bad words at 4\n", 2)
}

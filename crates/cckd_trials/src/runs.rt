ghost use Rattle.std.specs.Prelude.{◌≡◌, true, map, string_bytes, IfOk};
ghost use Rattle.cckd_base.specs.declared.geometry.Geometry.{Geometry as Shape};
ghost use Rattle.cckd_shelf.specs.Faults.{no_faults};
ghost use Rattle.cckd_memory.specs.Memory.{seen_of};
ghost use Rattle.cckd_stack.specs.Layers.{Stack as Layered};
ghost use Rattle.cckd_top.specs.Unhindered.{AreLow, IsUnhindered};
ghost use Rattle.cckd_top.specs.World.{TellsFiles};

use cckd_memory::{Bytes, FileIn, MemoryStage, Op};
use cckd_top::run_plain;
use std::alloc::Global;
use std::process::Abort;
use std::test::Fail;

/// Bytes at a place of a file.
type Patch<'a> = (usize, &'a [u8]);

/// The headers of a 2311 as it is made; its eight level-one words are 0.
const RAW_2311: [Patch<'static>; 3] = [
    (0, b"CKD_C370\x0a\0\0\0\0\x10\0\0\x11"),
    (512, b"\0\x03\x01\0\x08\0\0\0\0\x01\0\0\x20\x04\0\0\x20\x04"),
    (552, b"\xc8\0\0\0\0\0\xff\xff"),
];

const CLOSED: &str = "closed\n";

/// What may be printed in place of a reply where a call of the outside fails.
const FAULTS: [&str; 5] = [
    "fault: read\n",
    "fault: write\n",
    "fault: sync\n",
    "fault: source\n",
    "broken at ",
];

/// Puts bytes over those of a file, as far as it reaches.
fn patch(file: &mut [u8], at: usize, bytes: &[u8]) {
    for (place, byte) in file.iter_mut().skip(at).zip(bytes) {
        *place = *byte;
    }
}

/// Puts bytes over those of a file, one after another.
fn patch_all(file: &mut [u8], patches: &[Patch]) {
    for (at, bytes) in patches {
        patch(file, *at, bytes);
    }
}

/// A file of zeros with these bytes put into it.
fn file_of(alloc: Global, len: usize, patches: &[Patch]) -> Result<Vec<u8>, Fail> {
    let mut file = vec![in alloc; 0; len]?;
    patch_all(&mut file, patches);
    Ok(file)
}

/// A raw 2311 with more bytes put into it.
fn small(alloc: Global, len: usize, more: &[Patch]) -> Result<Vec<u8>, Fail> {
    let mut file = file_of(alloc, len, &RAW_2311)?;
    patch_all(&mut file, more);
    Ok(file)
}

fn strings(alloc: Global, texts: &[&str]) -> Result<Vec<String>, Fail> {
    let mut words = Vec::new(alloc);
    for text in texts {
        words.push(String::from_str(alloc, text)?)?;
    }
    Ok(words)
}

fn joined(alloc: Global, texts: &[&str]) -> Result<Vec<u8>, Fail> {
    let mut all = Vec::new(alloc);
    for text in texts {
        all.extend_from_slice(text.as_bytes())?;
    }
    Ok(all)
}

fn named(alloc: Global, name: &str, bytes: &[u8]) -> Result<FileIn, Fail> {
    Ok(FileIn {
        name: Bytes::of(alloc, name.as_bytes())?,
        bytes: Bytes::of(alloc, bytes)?,
    })
}

/// A stage with these files and this script, where the calls of these numbers fail.
fn staged(
    alloc: Global,
    files: &[(&str, &[u8])],
    script: &[u8],
    failing: &[u64],
) -> Result<MemoryStage, Fail>
    ensures tells { IfOk result (λ stage. TellsFiles (seen_of stage)) }
    ensures faults { IfOk result (λ stage. (seen_of stage).faults ≡ no_faults) }
{
    let mut given = Vec::new(alloc);
    for (name, bytes) in files {
        given.push(named(alloc, name, bytes)?)?;
    }
    Ok(MemoryStage::new(alloc, &given, script, failing)?)
}

/// What a run leaves, and its status. It has memory enough.
fn run(
    rt: &impl Abort,
    alloc: Global,
    words: &[&str],
    files: &[(&str, &[u8])],
    script: &[u8],
    failing: &[u64],
) -> Result<(MemoryStage, u8), Fail> {
    let stage = staged(alloc, files, script, failing)?;
    let (stage, status) = run_plain(stage, alloc, &strings(alloc, words)?);
    assert_eq!(rt; stage.wanted(), 0);
    Ok((stage, status.code))
}

/// Compares what a run prints, in pieces, and its status.
fn prints(
    rt: &impl Abort,
    alloc: Global,
    words: &[&str],
    files: &[(&str, &[u8])],
    script: &str,
    output: &[&str],
    status: u8,
) -> Result<(), Fail> {
    let (stage, code) = run(rt, alloc, words, files, script.as_bytes(), &[])?;
    let output = joined(alloc, output)?;
    assert_eq!(rt; stage.output(), output.as_slice());
    assert_eq!(rt; code, status);
    Ok(())
}

/// Wrong words, and the number of the first that is.
const WRONG_WORDS: [(&[&str], &str); 9] = [
    (&[], "bad words at 0\n"),
    (&["dasdinit", "v"], "bad words at 0\n"),
    (&["cckdrun"], "bad words at 1\n"),
    (&["cckdrun", "-limit"], "bad words at 2\n"),
    (&["cckdrun", "-limit", "4095", "v"], "bad words at 2\n"),
    (&["cckdrun", "-limit", "4100", "v"], "bad words at 2\n"),
    (&["cckdrun", "-limit", "04096", "v"], "bad words at 2\n"),
    (
        &["cckdrun", "-limit", "2147483648", "v"],
        "bad words at 2\n",
    ),
    (&["cckdrun", "-limit", "4096", "-limit"], "bad words at 3\n"),
];

#[test]
fn wrong_words_are_refused(rt: HostRuntime) -> Result<(), Fail> {
    let alloc = rt.alloc();
    let raw = small(alloc, 1056, &[])?;
    for (words, output) in WRONG_WORDS {
        prints(
            &rt,
            alloc,
            words,
            &[("v", &raw)],
            "read 0 0\n",
            &[output],
            2,
        )?;
    }
    Ok(())
}

#[test]
fn files_that_are_no_images_are_refused(rt: HostRuntime) -> Result<(), Fail> {
    let alloc = rt.alloc();
    let raw = small(alloc, 1056, &[])?;
    let words = ["cckdrun", "v"];
    prints(
        &rt,
        alloc,
        &words,
        &[],
        "read 0 0\n",
        &["refused: slot 0 not a CCKD image\n"],
        3,
    )?;
    let gap: [(&str, &[u8]); 2] = [("v", &raw), ("v.sf2", b"x")];
    prints(
        &rt,
        alloc,
        &words,
        &gap,
        "read 0 0\n",
        &["refused: gap at slot 2\n"],
        3,
    )?;
    let shadow: [(&str, &[u8]); 2] = [("v", &raw), ("v.sf1", b"x")];
    prints(
        &rt,
        alloc,
        &words,
        &shadow,
        "read 0 0\n",
        &["refused: slot 1 not a CCKD image\n"],
        3,
    )
}

/// A script that writes, hardens, overwrites and hardens again, and what it prints.
const SCRIPT: &str = "fill 0 0 8 aa\nharden\nfill 0 0 8 bb\nharden\nread 0 0\n";

const REPLIES: [&str; 6] = [
    "written 0 0 45\n",
    "hardened\n",
    "written 0 0 45\n",
    "hardened\n",
    "track 0 0 45 0000000000000000000000000800000000000000000000000001000008bbbbbbbbbbbbbbbbffffffffffffffff\n",
    "closed\n",
];

/// The track as it is written first, and as it is before.
const FIRST: &str =
    "track 0 0 45 0000000000000000000000000800000000000000000000000001000008aaaaaaaaaaaaaaaaffffffffffffffff\n";

const NULL: &str =
    "track 0 0 37 0000000000000000000000000800000000000000000000000001000000ffffffffffffffff\n";

#[test]
fn what_was_written_is_read_again(rt: HostRuntime) -> Result<(), Fail> {
    let alloc = rt.alloc();
    let raw = small(alloc, 1056, &[])?;
    let words = ["cckdrun", "-limit", "8192", "v"];
    let (stage, code) = run(&rt, alloc, &words, &[("v", &raw)], SCRIPT.as_bytes(), &[])?;
    let output = joined(alloc, &REPLIES)?;
    assert_eq!(rt; stage.output(), output.as_slice());
    assert_eq!(rt; code, 0);
    let Some(file) = stage.file("v") else {
        return Err(Fail::new("no file"));
    };
    prints(
        &rt,
        alloc,
        &words,
        &[("v", file)],
        "read 0 0\n",
        &[REPLIES[4], CLOSED],
        0,
    )
}

/// How many syncs are made before each put, behind the one before it.
fn syncs_before_puts(alloc: Global, ops: &[Op]) -> Result<Vec<u32>, Fail> {
    let mut counts = Vec::new(alloc);
    let mut syncs = 0u32;
    for op in ops {
        match op {
            Op::Sync { .. } => syncs = syncs.saturating_add(1),
            Op::Put { .. } => {
                counts.push(syncs)?;
                syncs = 0;
            }
            _ => {}
        }
    }
    Ok(counts)
}

#[test]
fn two_hundred_rewrites_are_hardened_by_two_syncs(rt: HostRuntime) -> Result<(), Fail> {
    let alloc = rt.alloc();
    let raw = small(alloc, 1056, &[])?;
    let mut script = String::new(alloc);
    for byte in 0..200u8 {
        write!(script, "fill 0 0 8 {byte:02x}\n")?;
    }
    script.push_str("harden\n")?;
    let words = ["cckdrun", "v"];
    let (stage, code) = run(&rt, alloc, &words, &[("v", &raw)], script.as_bytes(), &[])?;
    assert_eq!(rt; code, 0);
    let syncs = syncs_before_puts(alloc, stage.ops())?;
    assert_eq!(rt;
        (syncs.len(), syncs.first()),
        (202, Some(&2)),
        "one of the mounting, and one of the mark"
    );
    assert!(rt;
        syncs.iter().skip(1).take(199).all(|count| *count == 0),
        "{syncs:?}"
    );
    assert_eq!(rt; syncs.get(200), Some(&2), "those of the hardening");
    Ok(())
}

/// What is left of a text behind a front of it.
fn behind<'a>(text: &'a [u8], front: &[u8]) -> Option<&'a [u8]> {
    if text.starts_with(front) {
        Some(&text[front.len()..])
    } else {
        None
    }
}

/// What is left of a text behind its first line, or nothing.
fn next_line(text: &[u8]) -> &[u8] {
    match text.iter().position(|b| *b == b'\n') {
        Some(at) => &text[at..][1..],
        None => &[],
    }
}

/// Whether a text begins with what is printed for a fault.
fn tells_fault(text: &[u8]) -> bool {
    FAULTS
        .iter()
        .any(|fault| text.starts_with(fault.as_bytes()))
}

/// What is left of an output behind a reply, or a fault in its place, and whether it was the reply. The output may end early.
fn after<'a>(output: &'a [u8], reply: &str) -> (&'a [u8], bool) {
    match behind(output, reply.as_bytes()) {
        Some(rest) => (rest, true),
        None if tells_fault(output) => (next_line(output), false),
        None => (output, false),
    }
}

/// Whether an output has the replies to the script, where a fault may stand in place of each. The track that is read is the one
/// that was written last.
fn is_accepted(output: &[u8]) -> bool {
    let (rest, first) = after(output, REPLIES[0]);
    let (rest, _) = after(rest, REPLIES[1]);
    let (rest, second) = after(rest, REPLIES[2]);
    let (rest, _) = after(rest, REPLIES[3]);
    let track = match (first, second) {
        (_, true) => REPLIES[4],
        (true, false) => FIRST,
        (false, false) => NULL,
    };
    let (rest, _) = after(rest, track);
    let (rest, _) = after(rest, CLOSED);
    rest.is_empty()
}

#[test]
fn each_call_fails_in_turn(rt: HostRuntime) -> Result<(), Fail> {
    let alloc = rt.alloc();
    let raw = small(alloc, 1056, &[])?;
    let words = ["cckdrun", "v"];
    let mut broken = 0u32;
    for call in 1..140u64 {
        let alloc = rt.alloc();
        let (stage, code) = run(
            &rt,
            alloc,
            &words,
            &[("v", &raw)],
            SCRIPT.as_bytes(),
            &[call],
        )?;
        let output = stage.output();
        assert!(rt; is_accepted(output), "{call}");
        let whole = joined(alloc, &REPLIES)?;
        assert!(rt; code == 7 || output == whole.as_slice(), "{call}");
        let told = joined(
            alloc,
            &[
                REPLIES[0],
                REPLIES[1],
                REPLIES[2],
                "fault: sync\n",
                "broken at 4\n",
                "broken at 4\n",
            ],
        )?;
        if output == told.as_slice() {
            broken = broken.saturating_add(1);
            let Some(file) = stage.file("v") else {
                return Err(Fail::new("no file"));
            };
            let (again, code) = run(&rt, alloc, &words, &[("v", file)], b"read 0 0\n", &[])?;
            assert_eq!(rt; code, 0);
            assert!(rt; again.output().starts_with(b"track 0 0 45 "), "{call}");
        }
    }
    assert!(rt; broken >= 2);
    Ok(())
}

/// Runs over a stage of which no call failed, and answers what is left, and whether the status is 0 or 1. Then all holds that the
/// law on runs that are served asks of a run.
fn run_free(stage: MemoryStage, alloc: Global, words: &[String]) -> (MemoryStage, bool)
    requires tells { TellsFiles (seen_of stage) }
    requires faults { (seen_of stage).faults ≡ no_faults }
    ensures low { AreLow (seen_of stage).faults }
    ensures free { result.1 ≡ true → (g : Shape) × (s0 : Layered) × IsUnhindered (map string_bytes words.now) g s0 (seen_of stage) (seen_of result.0) }
{
    let (left, status) = run_plain(stage, alloc, words);
    (left, status.code < 2)
}

#[test]
fn nothing_hinders_a_run(rt: HostRuntime) -> Result<(), Fail> {
    let alloc = rt.alloc();
    let raw = small(alloc, 1056, &[])?;
    let stage = staged(alloc, &[("v", &raw)], SCRIPT.as_bytes(), &[])?;
    let (_, is_free) = run_free(stage, alloc, &strings(alloc, &["cckdrun", "v"])?);
    assert!(rt; is_free);
    Ok(())
}

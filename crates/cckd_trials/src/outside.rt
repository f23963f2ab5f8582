//! Runs of the program over files in memory.

use cckd_memory::{Bytes, FileIn, MemoryStage};
use cckd_top::run_plain;
use std::alloc::{AllocError, Global};

/// A run that ended.
#[derive(Drop)]
pub struct Ran {
    pub stage: MemoryStage,
    pub status: u8,
}

/// The name of a slot's file. There are three at most.
pub fn name_of(slot: usize) -> &'static str {
    match slot {
        0 => "v",
        1 => "v.sf1",
        _ => "v.sf2",
    }
}

impl Ran {
    /// What a slot's file holds.
    pub fn file(&self, slot: usize) -> &[u8] {
        self.stage.file(name_of(slot)).unwrap_or(&[])
    }
}

fn words_of(alloc: Global, limit: Option<usize>) -> Result<Vec<String>, AllocError> {
    let mut words = Vec::new(alloc);
    words.push(String::from_str(alloc, "cckdrun")?)?;
    if let Some(limit) = limit {
        words.push(String::from_str(alloc, "-limit")?)?;
        words.push(format!(in alloc; "{limit}")?)?;
    }
    words.push(String::from_str(alloc, "v")?)?;
    Ok(words)
}

fn named(alloc: Global, slot: usize, bytes: &[u8]) -> Result<FileIn, AllocError> {
    Ok(FileIn {
        name: Bytes::of(alloc, name_of(slot).as_bytes())?,
        bytes: Bytes::of(alloc, bytes)?,
    })
}

/// Runs a script over the files of a base and its shadows, where the calls of these numbers fail.
pub fn run(
    alloc: Global,
    files: &[Vec<u8>],
    limit: Option<usize>,
    script: &str,
    failing: &[u64],
) -> Result<Ran, AllocError> {
    let mut given = Vec::new(alloc);
    for (slot, bytes) in files.iter().enumerate() {
        given.push(named(alloc, slot, bytes)?)?;
    }
    let stage = MemoryStage::new(alloc, &given, script.as_bytes(), failing)?;
    let words = words_of(alloc, limit)?;
    let (stage, status) = run_plain(stage, alloc, &words);
    Ok(Ran {
        stage,
        status: status.code,
    })
}

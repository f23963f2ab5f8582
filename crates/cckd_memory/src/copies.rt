//! What a stage in memory begins with.
ghost use Rattle.std.specs.Prelude.{◌≡◌, replicate, IfOk};
ghost use Rattle.cckd_memory.specs.Inside.{no_place};

use crate::places::Place;
use crate::{Bytes, FileIn, Memory};
use std::alloc::Global;

pub(crate) fn copy_files(alloc: Global, files: &[FileIn]) -> Result<Vec<FileIn>, Memory>
    ensures { IfOk result (λ copies. copies.items ≡ files.now) }
{
    let mut copies = Vec::new(alloc);
    for file in files {
        copies.push(copy_file(alloc, file)?)?;
    }
    Ok(copies)
}

fn copy_file(alloc: Global, file: &FileIn) -> Result<FileIn, Memory>
    ensures { IfOk result (λ copy. copy ≡ file.now) }
{
    Ok(FileIn {
        name: Bytes::of(alloc, file.name.get())?,
        bytes: Bytes::of(alloc, file.bytes.get())?,
    })
}

pub(crate) fn nine_places(alloc: Global) -> Result<Vec<Place>, Memory>
    ensures { IfOk result (λ places. places.items ≡ replicate 9 no_place) }
{
    let mut places = Vec::new(alloc);
    for _slot in 0..9u8 {
        places.push(Place::new(alloc))?;
    }
    Ok(places)
}

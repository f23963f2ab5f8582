use crate::HostStage;
use cckd_shelf::{Failed, Shelf, Slot};
use std::test::Fail;
use std::{env, fs};

fn slot(n: u8) -> Result<Slot, Fail> {
    Ok(Slot::new(n).ok_or("no slot")?)
}

/// A name in the folder for passing files, which no other test has.
fn name_of(rt: HostRuntime, test: &str) -> Result<String, Fail> {
    let folder = env::temp_dir(&rt)?;
    let process = std::process::id(rt.process());
    Ok(format!(in rt.alloc(); "{}/cckd_files_{test}_{process}", folder.as_str())?)
}

/// What the file of the name holds, where there is one.
fn held(rt: HostRuntime, name: &str) -> Option<String> {
    fs::read_to_string(&rt, name).ok()
}

/// Makes it, lets a gap be filled, and cuts it.
fn write_and_cut<S: Shelf>(shelf: &mut S, slot: Slot) -> Result<(), Failed> {
    shelf.write(slot, 3, b"defg")?;
    if shelf.len(slot)? == 7 {
        shelf.cut(slot, 6)?;
    }
    shelf.sync(slot)
}

#[test]
fn a_file_is_made_by_the_first_write(rt: HostRuntime) -> Result<(), Fail> {
    let name = name_of(rt, "made")?;
    let base = slot(0)?;
    let mut stage = HostStage::new(rt, rt.alloc());
    stage.bind(base, name.as_str())?;
    stage.cut(base, 0)?;
    stage.sync(base)?;
    assert!(rt;
        held(rt, name.as_str()).is_none(),
        "a cut and a sync make none"
    );
    write_and_cut(&mut stage, base)?;
    let mut part = [1u8; 4];
    assert_eq!(rt; stage.read(base, 4, &mut part), Err(Failed));
    stage.read(base, 1, &mut part)?;
    assert_eq!(rt; part.as_slice(), b"\0\0de".as_slice());
    fs::remove_file(&rt, name.as_str())?;
    Ok(())
}

/// Binds the name, with a file or with none, puts another file in its place, and writes.
fn write_after_replacing(
    rt: HostRuntime,
    name: &str,
    was_there: bool,
) -> Result<Result<(), Failed>, Fail> {
    if was_there {
        fs::write(&rt, name, "bound")?;
    }
    let mut stage = HostStage::new(rt, rt.alloc());
    let base = slot(0)?;
    stage.bind(base, name)?;
    if was_there {
        fs::remove_file(&rt, name)?;
    }
    fs::write(&rt, name, "another")?;
    Ok(stage.write(base, 0, b"x"))
}

#[test]
fn what_has_come_in_its_place_is_not_written(rt: HostRuntime) -> Result<(), Fail> {
    let name = name_of(rt, "replaced")?;
    for was_there in [true, false] {
        assert_eq!(rt;
            write_after_replacing(rt, name.as_str(), was_there)?,
            Err(Failed)
        );
        assert_eq!(rt; held(rt, name.as_str()).as_deref(), Some("another"));
        fs::remove_file(&rt, name.as_str())?;
    }
    Ok(())
}

/// Writes a file, binds another name, takes the file away, and syncs it in another slot.
fn sync_what_is_gone(rt: HostRuntime, name: &str, stage: &mut HostStage) -> Result<u64, Fail> {
    stage.bind(slot(0)?, name)?;
    stage.write(slot(0)?, 0, b"abc")?;
    stage.bind(slot(0)?, "/no folder/of this name")?;
    fs::remove_file(&rt, name)?;
    stage.bind(slot(1)?, name)?;
    Ok(stage.len(slot(1)?)?)
}

#[test]
fn no_sync_is_believed_after_one_that_failed(rt: HostRuntime) -> Result<(), Fail> {
    let name = name_of(rt, "gone")?;
    let mut stage = HostStage::new(rt, rt.alloc());
    assert_eq!(rt; sync_what_is_gone(rt, name.as_str(), &mut stage)?, 3);
    for _ in 0..2 {
        assert_eq!(rt; stage.sync(slot(1)?), Err(Failed));
        fs::write(&rt, name.as_str(), "another")?;
    }
    fs::remove_file(&rt, name.as_str())?;
    Ok(())
}

use crate::dice::Dice;
use crate::lines::Line;
use crate::maker::Maker;
use crate::model::Shape;
use crate::outside::Ran;
use crate::scripts::{Haunt, long_script, long_shape, random_files, random_limit, random_shape};
use crate::trial::Trial;
use std::alloc::{AllocError, Global};
use std::process::Abort;
use std::test::Fail;

/// A script at random over files at random.
fn random_trial(
    alloc: Global,
    dice: &mut Dice,
    seed: u64,
    short: bool,
) -> Result<Trial, AllocError> {
    let shape = random_shape(dice);
    let files = random_files(alloc, dice, shape, short)?;
    let limit = random_limit(dice, &files);
    let count = dice.below(40);
    let lines = Haunt::new(dice, shape).script(alloc, dice, count)?;
    Ok(Trial {
        name: format!(in alloc; "seed {seed}")?,
        shape,
        files,
        limit,
        short,
        lines,
    })
}

/// A script that writes each track of files at random: more than can be staged at once.
fn long_trial(alloc: Global, dice: &mut Dice) -> Result<Trial, AllocError> {
    let shape = long_shape();
    let files = random_files(alloc, dice, shape, false)?;
    Ok(Trial {
        name: String::from_str(alloc, "long")?,
        shape,
        files,
        limit: None,
        short: false,
        lines: long_script(alloc, dice, shape)?,
    })
}

/// Another script over what a run left.
fn next_trial(
    alloc: Global,
    dice: &mut Dice,
    trial: Trial,
    ran: &Ran,
) -> Result<Trial, AllocError> {
    let mut files = trial.files;
    let last = files.len().wrapping_sub(1);
    if let Some(file) = files.last_mut() {
        *file = Vec::from_slice(alloc, ran.file(last))?;
    }
    let limit = random_limit(dice, &files);
    let count = dice.below(20);
    let lines = Haunt::new(dice, trial.shape).script(alloc, dice, count)?;
    Ok(Trial {
        files,
        limit,
        lines,
        ..trial
    })
}

#[test]
fn random_scripts_answer_as_the_model(rt: HostRuntime) -> Result<(), Fail> {
    let alloc = rt.alloc();
    let mut fulls = 0usize;
    for seed in 0..50_000u64 {
        let mut dice = Dice::new(seed);
        let trial = random_trial(alloc, &mut dice, seed, seed % 10 == 7)?;
        let (ran, replay) = trial.run(&rt, alloc, &[])?;
        trial.check_end(&rt, alloc, &ran, &replay)?;
        fulls = fulls.wrapping_add(replay.fulls);
        let next = next_trial(alloc, &mut dice, trial, &ran)?;
        let (ran, replay) = next.run(&rt, alloc, &[])?;
        next.check_end(&rt, alloc, &ran, &replay)?;
        fulls = fulls.wrapping_add(replay.fulls);
    }
    assert!(rt;
        fulls > 10_000,
        "{fulls} writes were refused for want of room"
    );
    Ok(())
}

/// Runs a trial, and looks at what some stops of it leave.
fn ran_with_stops(
    rt: &impl Abort,
    alloc: Global,
    dice: &mut Dice,
    trial: &Trial,
    stops: u8,
) -> Result<Ran, AllocError> {
    let (ran, replay) = trial.run(rt, alloc, &[])?;
    let count = ran.stage.ops().len();
    for _ in 0..stops {
        let stop = dice.below(count.wrapping_add(1));
        trial.check_stop(rt, alloc, dice, &ran, &replay, stop)?;
    }
    Ok(ran)
}

#[test]
fn random_stops_leave_what_was_hardened(rt: HostRuntime) -> Result<(), Fail> {
    let alloc = rt.alloc();
    for seed in 50_000..54_000u64 {
        let mut dice = Dice::new(seed);
        let trial = random_trial(alloc, &mut dice, seed, false)?;
        let ran = ran_with_stops(&rt, alloc, &mut dice, &trial, 3)?;
        let next = next_trial(alloc, &mut dice, trial, &ran)?;
        let _ran = ran_with_stops(&rt, alloc, &mut dice, &next, 2)?;
    }
    Ok(())
}

#[test]
fn more_writes_than_are_staged_at_once_stay(rt: HostRuntime) -> Result<(), Fail> {
    let alloc = rt.alloc();
    for seed in 0..200u64 {
        let mut dice = Dice::new(seed);
        let trial = long_trial(alloc, &mut dice)?;
        let (ran, replay) = trial.run(&rt, alloc, &[])?;
        trial.check_end(&rt, alloc, &ran, &replay)?;
        for _ in 0..4 {
            let stop = dice.below(ran.stage.ops().len());
            trial.check_stop(&rt, alloc, &mut dice, &ran, &replay, stop)?;
        }
    }
    Ok(())
}

/// A big-endian base, and on it a little-endian shadow, whose script writes, hardens and overwrites.
fn short_trial(alloc: Global) -> Result<Trial, AllocError> {
    let shape = Shape {
        heads: 15,
        cylinders: 20,
        track_size: 1024,
    };
    let mut dice = Dice::new(5);
    let mut base = Maker::new(alloc, shape, true, false, 1)?;
    let _table = base.add_table(0, 4)?;
    let mut shadow = Maker::new(alloc, shape, false, true, 0)?;
    let table = shadow.add_table(1, 4)?;
    shadow.set_null(table, 3, 1);
    let mut files = Vec::new(alloc);
    files.push(base.into_file()).map_err(AllocError::from)?;
    files.push(shadow.into_file()).map_err(AllocError::from)?;
    let mut lines = Vec::new(alloc);
    for (track, len) in [
        (3, 8),
        (259, 700),
        (999, 0),
        (3, 8),
        (4, 100),
        (999, 0),
        (3, 600),
    ] {
        let line = if track == 999 {
            Line::Harden
        } else {
            Line::Fill(shape.address(track), len, dice.byte())
        };
        lines.push(line).map_err(AllocError::from)?;
    }
    lines
        .push(Line::Read(shape.address(259)))
        .map_err(AllocError::from)?;
    lines.push(Line::Check(3)).map_err(AllocError::from)?;
    lines.push(Line::Close).map_err(AllocError::from)?;
    Ok(Trial {
        name: String::from_str(alloc, "short")?,
        shape,
        files,
        limit: None,
        short: false,
        lines,
    })
}

#[test]
fn a_stop_at_each_operation_leaves_what_was_hardened(rt: HostRuntime) -> Result<(), Fail> {
    let alloc = rt.alloc();
    let mut dice = Dice::new(7);
    let trial = short_trial(alloc)?;
    let (ran, replay) = trial.run(&rt, alloc, &[])?;
    trial.check_end(&rt, alloc, &ran, &replay)?;
    for stop in 0..ran.stage.ops().len().wrapping_add(1) {
        trial.check_stop(&rt, alloc, &mut dice, &ran, &replay, stop)?;
    }
    Ok(())
}

/// More calls than the short script makes.
const MANY_CALLS: u64 = 160;

#[test]
fn each_call_that_fails_is_told(rt: HostRuntime) -> Result<(), Fail> {
    let alloc = rt.alloc();
    let mut dice = Dice::new(9);
    let trial = short_trial(alloc)?;
    let mut told = 0u64;
    for call in 1..MANY_CALLS {
        let (ran, replay) = trial.run(&rt, alloc, &[call])?;
        if replay.faults == 1 {
            assert_eq!(rt; told.wrapping_add(1), call, "a fault isn't told");
            told = call;
        }
        let count = ran.stage.ops().len();
        trial.check_stop(&rt, alloc, &mut dice, &ran, &replay, count)?;
    }
    assert!(rt; 40 < told && told < MANY_CALLS, "{told} calls");
    Ok(())
}

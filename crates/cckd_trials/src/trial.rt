//! A script over files, run and looked at.

use crate::dice::Dice;
use crate::lines::{Line, script_of};
use crate::model::{Disk, Effect, Layer, Shape};
use crate::opener::{Opened, is_marked, open};
use crate::outside::{Ran, run};
use crate::replay::Replay;
use crate::scripts::reading_script;
use crate::stops::{lines_put, lost_track, made_of};
use cckd_memory::{Op, image_of};
use cckd_shelf::Slot;
use std::alloc::{AllocError, Global};
use std::process::Abort;

/// A script over files, and how far the last of them may grow.
#[derive(Drop)]
pub struct Trial {
    pub name: String,
    pub shape: Shape,
    pub files: Vec<Vec<u8>>,
    pub limit: Option<usize>,
    /// The last space of each file passes its end.
    pub short: bool,
    pub lines: Vec<Line>,
}

/// A layer as a file has it.
fn layer_of(
    rt: &impl Abort,
    alloc: Global,
    shape: Shape,
    slot: usize,
    file: &[u8],
    name: &str,
) -> Result<Layer, AllocError> {
    let opened = open(alloc, file, shape, slot > 0)?;
    assert_eq!(rt; opened.problem, None, "{name}: slot {slot}");
    let Opened { layer, .. } = opened;
    Ok(layer)
}

/// The disk that files hold.
fn disk_of(
    rt: &impl Abort,
    alloc: Global,
    shape: Shape,
    files: &[Vec<u8>],
    name: &str,
) -> Result<Disk, AllocError> {
    let mut layers = Vec::new(alloc);
    for (slot, file) in files.iter().enumerate() {
        let layer = layer_of(rt, alloc, shape, slot, file, name)?;
        layers.push(layer).map_err(AllocError::from)?;
    }
    Ok(Disk { shape, layers })
}

impl Trial {
    /// Runs it where the calls of these numbers fail, and follows what it puts.
    pub fn run(
        &self,
        rt: &impl Abort,
        alloc: Global,
        failing: &[u64],
    ) -> Result<(Ran, Replay), AllocError> {
        let script = script_of(alloc, &self.lines)?;
        let ran = run(alloc, &self.files, self.limit, &script, failing)?;
        let replay = self.replay(rt, alloc, &ran, !failing.is_empty())?;
        assert_eq!(rt; ran.stage.wanted(), 0);
        Ok((ran, replay))
    }

    /// Follows what a run of it put.
    pub fn replay(
        &self,
        rt: &impl Abort,
        alloc: Global,
        ran: &Ran,
        may_fault: bool,
    ) -> Result<Replay, AllocError> {
        let name = self.name.as_str();
        let disk = disk_of(rt, alloc, self.shape, &self.files, name)?;
        let mut replay = Replay::new(alloc, disk, may_fault);
        replay.follow(rt, alloc, &self.lines, ran.stage.output(), name)?;
        assert_eq!(rt; ran.status, replay.status, "{name}: the status");
        Ok(replay)
    }

    fn last(&self) -> usize {
        self.files.len().wrapping_sub(1)
    }

    /// Looks at the files of a run that met no fault: the last is closed where it was written, and the others stay.
    pub fn check_end(
        &self,
        rt: &impl Abort,
        alloc: Global,
        ran: &Ran,
        replay: &Replay,
    ) -> Result<(), AllocError> {
        for (slot, file) in self.files.iter().enumerate() {
            let left = ran.file(slot);
            if slot == self.last() {
                self.check_last(rt, alloc, file, left, replay)?;
            } else {
                assert!(rt;
                    left == file.as_slice(),
                    "{}: slot {slot} is changed",
                    self.name
                );
            }
        }
        Ok(())
    }

    /// Looks at the last file, and what it was. A short one may be made whole, also where nothing is written then.
    fn check_last(
        &self,
        rt: &impl Abort,
        alloc: Global,
        file: &[u8],
        left: &[u8],
        replay: &Replay,
    ) -> Result<(), AllocError> {
        if replay.written {
            return self.check_closed(rt, alloc, left, replay);
        }
        if self.short {
            let _opened = self.check_map(rt, alloc, left, replay)?;
            return Ok(());
        }
        assert!(rt; left == file, "{}: the last file is changed", self.name);
        Ok(())
    }

    /// Looks whether the last file is sound and holds what the model's layer does.
    fn check_map(
        &self,
        rt: &impl Abort,
        alloc: Global,
        file: &[u8],
        replay: &Replay,
    ) -> Result<Opened, AllocError> {
        let slot = self.last();
        let opened = open(alloc, file, self.shape, slot > 0)?;
        assert_eq!(rt; opened.problem, None, "{}: the last file", self.name);
        let same = replay.disk.layers.get(slot) == Some(&opened.layer);
        assert!(rt; same, "{}: the last file holds another map", self.name);
        Ok(opened)
    }

    /// Looks whether the last file is closed besides.
    fn check_closed(
        &self,
        rt: &impl Abort,
        alloc: Global,
        file: &[u8],
        replay: &Replay,
    ) -> Result<(), AllocError> {
        let opened = self.check_map(rt, alloc, file, replay)?;
        let unclosed = opened.closed_problem(alloc, file, self.shape.area())?;
        assert_eq!(rt; unclosed, None, "{}: the last file", self.name);
        Ok(())
    }

    /// How many lines are answered before the call that closes.
    fn closes_at(&self) -> usize {
        let mut answers = 0usize;
        for line in &self.lines {
            if !matches!(line, Line::Silent(_)) {
                answers = answers.wrapping_add(1);
            }
        }
        answers.wrapping_sub(1)
    }

    /// Looks at an outcome of a stop behind the first operations of a run, by several choices.
    pub fn check_stop(
        &self,
        rt: &impl Abort,
        alloc: Global,
        dice: &mut Dice,
        ran: &Ran,
        replay: &Replay,
        count: usize,
    ) -> Result<(), AllocError> {
        let ops = ran.stage.ops().get(..count).unwrap_or(&[]);
        let name = format!(in alloc; "{} stopped at {count}", self.name)?;
        for kind in 0..6usize {
            let left = self.outcome(rt, alloc, dice, ops, kind)?;
            self.check_outcome(rt, alloc, replay, lines_put(ops), left, &name)?;
        }
        Ok(())
    }

    /// What a stop leaves of the last file, by choices of a kind: nothing is made, all, every second, the others, some;
    /// or all as it was written.
    fn outcome(
        &self,
        rt: &impl Abort,
        alloc: Global,
        dice: &mut Dice,
        ops: &[Op],
        kind: usize,
    ) -> Result<Vec<u8>, AllocError> {
        let empty = Vec::new(alloc);
        let start = self.files.last().unwrap_or(&empty);
        let slot = Slot::new(u8::try_from(self.last()).unwrap_or(9)).expect(rt, "a slot");
        if kind == 5 {
            return made_of(alloc, start, ops, slot.get());
        }
        let mut choices = [0u8; 300];
        for (number, choice) in choices.iter_mut().enumerate() {
            *choice = match kind {
                0 => 0,
                1 => 1,
                2 | 3 => u8::from((number % 2 == 0) == (kind == 2)),
                _ => dice.byte().saturating_sub(128),
            };
        }
        image_of(alloc, start, ops, slot, &choices)
    }

    /// Looks whether an outcome of the last file holds what it may hold behind so many answers, says that it was open, and
    /// is served again as it opens.
    fn check_outcome(
        &self,
        rt: &impl Abort,
        alloc: Global,
        replay: &Replay,
        answered: usize,
        left: Vec<u8>,
        name: &str,
    ) -> Result<(), AllocError> {
        let slot = self.last();
        let empty = Vec::new(alloc);
        let start = self.files.last().unwrap_or(&empty);
        let before = layer_of(rt, alloc, self.shape, slot, start, name)?;
        let layer = layer_of(rt, alloc, self.shape, slot, &left, name)?;
        let lost = lost_track(&before, &replay.effects, answered, &layer);
        assert_eq!(rt; lost, None, "{name}: a track holds what it may not");
        if !is_marked(&left) && left != *start {
            assert!(rt; answered >= self.closes_at(), "{name}: it isn't marked");
            self.check_closed(rt, alloc, &left, replay)?;
        }
        self.check_again(rt, alloc, replay, left, name)
    }

    /// Mounts the files again, the last of them as it was left, and compares what is read.
    fn check_again(
        &self,
        rt: &impl Abort,
        alloc: Global,
        replay: &Replay,
        left: Vec<u8>,
        name: &str,
    ) -> Result<(), AllocError> {
        let mut files = self.files.clone()?;
        if let Some(last) = files.last_mut() {
            *last = left;
        }
        let mut tracks = Vec::new(alloc);
        for effect in &replay.effects {
            if let Effect::Wrote { track, .. } = effect {
                tracks.push(*track).map_err(AllocError::from)?;
            }
        }
        let again = Trial {
            name: String::from_str(alloc, name)?,
            shape: self.shape,
            files,
            limit: None,
            short: self.short,
            lines: reading_script(alloc, self.shape, &tracks)?,
        };
        let (ran, replay) = again.run(rt, alloc, &[])?;
        again.check_end(rt, alloc, &ran, &replay)
    }
}

//! A replay of an output by the model.

use crate::lines::Line;
use crate::model::{Disk, Effect, Expected};
use std::alloc::{AllocError, Global};
use std::process::Abort;

/// An output that is followed line by line.
#[derive(Drop)]
pub struct Replay {
    /// The disk as it is behind the last line.
    pub disk: Disk,
    /// What the call of each answer did, and of the one whose answer is missing where the output was cut.
    pub effects: Vec<Effect>,
    /// How many lines were answered.
    pub answered: usize,
    /// Whether something was written.
    pub written: bool,
    pub fulls: usize,
    pub faults: usize,
    pub status: u8,
    calls: u64,
    broken: Option<u64>,
    may_fault: bool,
    over: bool,
}

/// The first line of some text, and what is behind its end.
fn first_line(text: &[u8]) -> Option<(&str, &[u8])> {
    let len = text.iter().position(|byte| *byte == b'\n')?;
    let line = str::from_utf8(text.get(..len)?).ok()?;
    Some((line, text.get(len.wrapping_add(1)..)?))
}

impl Replay {
    /// Nothing was followed yet. At most one fault is accepted, where one may come.
    pub fn new(alloc: Global, disk: Disk, may_fault: bool) -> Replay {
        Replay {
            disk,
            effects: Vec::new(alloc),
            answered: 0,
            written: false,
            fulls: 0,
            faults: 0,
            status: 0,
            calls: 0,
            broken: None,
            may_fault,
            over: false,
        }
    }

    /// Follows the output of a whole script.
    pub fn follow(
        &mut self,
        rt: &impl Abort,
        alloc: Global,
        lines: &[Line],
        output: &[u8],
        name: &str,
    ) -> Result<(), AllocError> {
        let mut rest = output;
        if self.may_fault
            && (output == b"fault: read\n".as_slice() || output == b"fault: sync\n".as_slice())
        {
            self.fault();
            return Ok(());
        }
        for line in lines {
            let Some(expected) = self.disk.expected(alloc, line)? else {
                continue;
            };
            rest = self.follow_line(rt, alloc, expected, rest, name)?;
            if self.over {
                break;
            }
        }
        assert!(rt; rest.is_empty(), "{name}: more is put than was asked");
        Ok(())
    }

    /// Follows one answer, and gives what is behind it.
    fn follow_line<'a>(
        &mut self,
        rt: &impl Abort,
        alloc: Global,
        expected: Expected,
        rest: &'a [u8],
        name: &str,
    ) -> Result<&'a [u8], AllocError> {
        let Some((line, behind)) = first_line(rest) else {
            assert!(rt;
                self.may_fault && self.faults == 0,
                "{name}: the output is cut"
            );
            self.cut(expected.effect)?;
            return Ok(rest);
        };
        let wanted = expected.text.clone()?;
        let answered = self.answered;
        let accepted = self.accepts(alloc, expected, line)?;
        assert!(rt;
            accepted,
            "{name}: line {answered} is {line} and not {wanted}"
        );
        Ok(behind)
    }

    fn fault(&mut self) {
        self.faults = self.faults.wrapping_add(1);
        self.status = 7;
    }

    /// The output ends here. The call may have done its work.
    fn cut(&mut self, effect: Effect) -> Result<(), AllocError> {
        self.fault();
        self.over = true;
        self.effects.push(effect)?;
        Ok(())
    }

    fn answer(&mut self, effect: Effect, status: u8) -> Result<(), AllocError> {
        self.effects.push(effect)?;
        self.answered = self.answered.wrapping_add(1);
        self.status = self.status.max(status);
        Ok(())
    }

    /// Whether a line may answer a call for which the model expects another, or the same.
    fn accepts(
        &mut self,
        alloc: Global,
        expected: Expected,
        line: &str,
    ) -> Result<bool, AllocError> {
        let Expected {
            text,
            effect,
            is_call,
        } = expected;
        if is_call {
            self.calls = self.calls.wrapping_add(1);
        }
        if is_call && let Some(at) = self.broken {
            self.answer(Effect::Nothing, 7)?;
            let wanted = format!(in alloc; "broken at {at}")?;
            return Ok(wanted.as_str() == line);
        }
        if text.as_str() == line {
            let status = if line.starts_with("refused: ") { 1 } else { 0 };
            self.make(&effect)?;
            self.answer(effect, status)?;
            return Ok(true);
        }
        if line == "fault: source" {
            self.over = true;
            return Ok(self.meets_fault());
        }
        self.accepts_refusal(effect, line)
    }

    /// Makes on the model's disk what a call did.
    fn make(&mut self, effect: &Effect) -> Result<(), AllocError> {
        if let Effect::Wrote { track, bytes } = effect {
            self.written = true;
            self.disk.store(*track, bytes.clone()?);
        }
        Ok(())
    }

    /// Counts a fault, and answers whether it may come.
    fn meets_fault(&mut self) -> bool {
        let may = self.may_fault && self.faults == 0;
        self.fault();
        may
    }

    fn accepts_refusal(&mut self, effect: Effect, line: &str) -> Result<bool, AllocError> {
        if let Effect::Wrote { bytes, .. } = &effect
            && is_full(line, bytes.len())
        {
            self.fulls = self.fulls.wrapping_add(1);
            self.answer(Effect::Nothing, 1)?;
            return Ok(true);
        }
        match line {
            "fault: read" => {
                let may = self.meets_fault();
                self.answer(Effect::Nothing, 7)?;
                Ok(may)
            }
            "fault: write" => self.breaks(effect),
            "fault: sync" => self.breaks(effect),
            _ => Ok(false),
        }
    }

    /// The disk is broken. What the call wrote may be there.
    fn breaks(&mut self, effect: Effect) -> Result<bool, AllocError> {
        let may = self.meets_fault() && !matches!(effect, Effect::Nothing);
        self.broken = Some(self.calls);
        let left = match effect {
            Effect::Hardened => Effect::Nothing,
            Effect::Closed => Effect::Nothing,
            _ => effect,
        };
        self.answer(left, 7)?;
        Ok(may)
    }
}

/// Whether a line refuses a track of so many bytes for want of room, with numbers that may be.
fn is_full(line: &str, len: usize) -> bool {
    let Some(numbers) = line.strip_prefix("refused: full, need ") else {
        return false;
    };
    let Some((need, others)) = numbers.split_once(" largest ") else {
        return false;
    };
    let Some((largest, room)) = others.split_once(" room ") else {
        return false;
    };
    match (
        need.parse::<usize>(),
        largest.parse::<usize>(),
        room.parse::<usize>(),
    ) {
        (Ok(need), Ok(largest), Ok(room)) => {
            let rounded = len.div_ceil(8).wrapping_mul(8);
            (need == 2048 || need == rounded) && largest < need && room < need
        }
        _ => false,
    }
}

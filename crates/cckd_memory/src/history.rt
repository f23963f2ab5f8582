//! All that happened to a stage in memory.
ghost use Rattle.std.specs.Prelude.{◌≡◌, [], ◌∷◌, ◌++◌, drop, map, OnOk, OnErr};
ghost use Rattle.cckd_shelf.specs.Events.{Put, Bound, ops_of, output_of};

use crate::pairs::{pop_both, push_both};
use crate::{Bytes, Memory, Op};
use std::alloc::Global;
use std::marker::Model;

/// An event: the next operation, or a bind.
#[derive(Debug, Drop)]
pub(crate) enum Note {
    Op,
    Bound { slot: u8, name: Bytes, bytes: Bytes },
}

/// The events. Contracts see them as a list, the newest first.
#[derive(Debug, Drop)]
pub(crate) struct History {
    notes: Vec<Note>,
    ops: Vec<Op>,
    output: Bytes,
}

impl Model for History {
    ghost use Rattle.std.specs.Prelude.{List};
    ghost use Rattle.cckd_shelf.specs.Events.{Event};

    ghost Value = { List Event };

    ghost use Rattle.cckd_memory.specs.Inside.{events_of, IsWritten};

    ghost view = { λ h. events_of h.notes.items h.ops.items };

    ghost invariant = { λ h. IsWritten h.notes.items h.ops.items h.output };
}

impl History {
    ghost use Rattle.cckd_memory.specs.Ops.{event_of, put_by};

    pub(crate) fn new(alloc: Global) -> History
        ensures { result ≡ [] }
    {
        History {
            notes: Vec::new(alloc),
            ops: Vec::new(alloc),
            output: Bytes::empty(alloc),
        }
    }

    pub(crate) fn ops(&self) -> &[Op]
        ensures { map event_of result.now ≡ ops_of self.now }
    {
        self.ops.as_slice()
    }

    pub(crate) fn output(&self) -> &[u8]
        ensures { result.now ≡ output_of self.now }
    {
        self.output.get()
    }

    /// Adds an operation that puts nothing.
    pub(crate) fn add(&mut self, op: Op) -> Result<(), Memory>
        requires { put_by op ≡ [] }
        ensures added { OnOk result (self.new ≡ event_of op ∷ self.old) }
        ensures kept { OnErr result (self.new ≡ self.old) }
    {
        push_both(&mut self.notes, &mut self.ops, op)?;
        Ok(())
    }

    pub(crate) fn add_put(&mut self, bytes: Bytes) -> Result<(), Memory>
        ensures added { OnOk result (self.new ≡ Put bytes ∷ self.old) }
        ensures kept { OnErr result (self.new ≡ self.old) }
    {
        let before = self.output.get().len();
        self.output.add(bytes.get())?;
        let op = Op::Put { bytes };
        let Ok(()) = push_both(&mut self.notes, &mut self.ops, op) else {
            self.output.cut(before);
            return Err(std::alloc::AllocError);
        };
        Ok(())
    }

    pub(crate) fn add_bound(&mut self, slot: u8, name: Bytes, bytes: Bytes) -> Result<(), Memory>
        ensures added { OnOk result (self.new ≡ Bound slot name bytes ∷ self.old) }
        ensures kept { OnErr result (self.new ≡ self.old) }
    {
        self.notes.push(Note::Bound { slot, name, bytes })?;
        Ok(())
    }

    /// Takes the newest event back, which put nothing.
    pub(crate) fn take_back(&mut self)
        requires { output_of (drop 1 self.old) ≡ output_of self.old }
        ensures { self.new ≡ drop 1 self.old }
    {
        pop_both(&mut self.notes, &mut self.ops);
    }
}

//! The list by recency, over the nodes and the bytes of all frames.
ghost use Rattle.std.specs.Prelude.{◌≡◌, ◌<◌, ◌≤◌, ◌-◌, ◌↔◌, ℕ, List, [], ◌∷◌, length, take, slice_get, IfOk, IfSome, IsNone, IsSome, option_map};
ghost use Rattle.std.specs.Borrow.{sem};
ghost use Rattle.cckd_frames.specs.Whole.{back_of as back_nodes};

use crate::block::{Deed, allocate, deallocate};
use crate::bytes::{BytePtr, Bytes};
use crate::node::{Node, NodePtr};
use crate::nodes::Nodes;
use crate::rings::{
    bring, choose, clear, enter, frame_at, frame_with, key_of, last_key, len_of, mark_at, put_len,
    put_mark,
};
use std::alloc::{AllocError, Global};
use std::marker::Model;

/// There was no memory.
pub type Memory = AllocError;

/// The number of a frame.
#[derive(Clone, Copy, PartialEq, Eq, Debug)]
pub struct Frame(pub u32);

/// A bounded list of entries, most recent first. Each has a key, a mark and bytes, and lies in a
/// frame of its own. Only `new` takes memory.
pub struct Frames {
    nodes: Nodes,
    bytes: Bytes,
    // The right to give the block back in which both lie.
    deed: Deed<Node, Global>,
    alloc: Global,
    count: u32,
    frame_len: u32,
    // The frames in use are those below this number.
    used: u32,
}

impl Model for Frames {
    ghost use Rattle.cckd_frames.specs.Frames.{Kept};

    ghost Value = { Kept };

    ghost use Rattle.cckd_frames.specs.Table.{entries_of, IsSound};
    ghost use Rattle.cckd_frames.specs.Whole.{IsWhole};

    ghost view = { λ f. record { count = f.count; frame_len = f.frame_len; entries = entries_of f.count f.frame_len f.used f.nodes.words f.bytes.bytes } };

    ghost invariant = { λ f. IsSound f.count f.frame_len f.used f.nodes.words f.bytes.bytes × IsWhole f.count f.frame_len f.nodes.first f.bytes.at f.bytes.room f.deed f.alloc };
}

/// How many nodes take the place of as many bytes, or a little more.
fn back_of(len: usize) -> usize
    requires { len ≤ 268435456 }
    ensures { result ≡ back_nodes len }
{
    (len + 55) / 56
}

impl Drop for Frames {
    fn drop(self) {
        let Frames {
            nodes,
            bytes,
            deed,
            alloc,
            count,
            frame_len,
            used: _,
        } = self;
        let front = 2 * count as usize + 1;
        let back = back_of(count as usize * frame_len as usize);
        let (row, first) = nodes.into_row();
        deallocate(&alloc, first.ptr, front, back, row, bytes.into_row(), deed);
    }
}

impl Frames {
    ghost use Rattle.cckd_frames.specs.Frames.{IsKept, with_entries, keys, entry_of, entry_in, frame_of, IsUsed, promoted, blank, with_mark, with_len, with_body, with_writes, holding};
    ghost use Rattle.cckd_frames.specs.LendingBody.{LendsBody};

    /// `count` frames of `frame_len` bytes each, none in use.
    pub fn new(alloc: Global, count: u32, frame_len: u32) -> Result<Frames, Memory>
        requires count { (1 ≤ count) × (count ≤ 4096) }
        requires frame_len { (1 ≤ frame_len) × (frame_len ≤ 65536) }
        ensures empty { IfOk result (λ f. f ≡ record { count = count; frame_len = frame_len; entries = [] }) }
        ensures kept { IfOk result IsKept }
    {
        let front = 2 * count + 1;
        let len = count as usize * frame_len as usize;
        let back = back_of(len);
        let (first, row, byte_row, deed) = allocate::<Node, Global>(&alloc, front as usize, back)?;
        let behind = BytePtr {
            ptr: unsafe { first.offset(front as isize) as *mut u8 },
        };
        let mut nodes = Nodes::new(row, NodePtr { ptr: first }, front);
        let bytes = Bytes::new(byte_row, behind);
        clear(&mut nodes, count);
        Ok(Frames {
            nodes,
            bytes,
            deed,
            alloc,
            count,
            frame_len,
            used: 0,
        })
    }

    /// The frame of the entry with this key, which comes first from then on.
    pub fn find(&mut self, key: u32) -> Option<Frame>
        ensures found { option_map (λ f. f.0) result ≡ frame_of key self.old.entries }
        ensures order { self.new ≡ with_entries self.old (promoted key self.old.entries) }

        // For the next call: the frame is in use, or the key is not there.
        ensures used { IfSome result (λ f. IsUsed f.0 self.new.entries) }
        ensures absent { IsNone result → IsNone (entry_of key self.new.entries) }
        ensures kept { IsKept self.new }
    {
        let count = self.count;
        let Some(frame) = frame_with(&self.nodes, count, key) else {
            return None;
        };
        bring(&mut self.nodes, count, frame);
        Some(Frame(frame))
    }

    /// The frame of the entry with this key. The order stays.
    pub fn peek(&self, key: u32) -> Option<Frame>
        ensures found { option_map (λ f. f.0) result ≡ frame_of key self.now.entries }
        ensures used { IfSome result (λ f. IsUsed f.0 self.now.entries) }
        ensures absent { IsNone result → IsNone (entry_of key self.now.entries) }
    {
        match frame_with(&self.nodes, self.count, key) {
            Some(frame) => Some(Frame(frame)),
            None => None,
        }
    }

    /// The key of the last entry, where all frames are in use.
    pub fn last(&self) -> Option<u32>
        ensures full { IsSome result ↔ (length self.now.entries ≡ self.now.count) }
        ensures key { result ≡ slice_get (keys self.now.entries) (self.now.count - 1) }
    {
        if self.used == self.count {
            Some(last_key(&self.nodes, self.count))
        } else {
            None
        }
    }

    /// Takes a frame for a first entry with this key, no bytes and no mark. Where all frames are in
    /// use, the last entry goes, and the new one has its frame.
    pub fn take_last(&mut self, key: u32) -> Frame
        requires absent { IsNone (entry_of key self.old.entries) }
        ensures taken { self.new ≡ with_entries self.old (blank result.0 key ∷ take (self.old.count - 1) self.old.entries) }
        ensures used { IsUsed result.0 self.new.entries }
        ensures kept { IsKept self.new }
    {
        let count = self.count;
        let used = count.min(self.used + 1);
        // The bytes of a frame are made when it is used first.
        self.bytes.reach(used as usize * self.frame_len as usize);
        let frame = choose(&mut self.nodes, count, self.used);
        enter(&mut self.nodes, count, frame, key);
        self.used = used;
        Frame(frame)
    }

    /// The same for an entry with these bytes, which are copied into the frame as they are.
    pub fn put(&mut self, key: u32, bytes: &[u8]) -> Frame
        requires absent { IsNone (entry_of key self.old.entries) }
        requires fits { length bytes.now ≤ self.old.frame_len }
        ensures put { self.new ≡ with_entries self.old (holding result.0 key bytes.now ∷ take (self.old.count - 1) self.old.entries) }
        ensures used { IsUsed result.0 self.new.entries }
        ensures kept { IsKept self.new }
    {
        let frame = self.take_last(key);
        self.copy(frame, bytes);
        frame
    }

    // These bytes come in the place of the entry's own.
    fn copy(&mut self, f: Frame, bytes: &[u8])
        requires used { IsUsed f.0 self.old.entries }
        requires fits { length bytes.now ≤ self.old.frame_len }
        ensures copied { self.new ≡ with_entries self.old (with_body f.0 bytes.now self.old.entries) }
        ensures used { IsUsed f.0 self.new.entries }
        ensures kept { IsKept self.new }
    {
        let count = self.count;
        let at = f.0 as usize * self.frame_len as usize;
        self.bytes.part_mut(at, bytes.len()).copy_from_slice(bytes);
        put_len(&mut self.nodes, count, f.0, bytes.len() as u32);
    }

    /// The bytes of the entry in this frame.
    pub fn bytes(&self, f: Frame) -> &[u8]
        requires { IsUsed f.0 self.now.entries }
        ensures { IfSome (entry_in f.0 self.now.entries) (λ e. result.now ≡ e.body) }
    {
        let len = len_of(&self.nodes, self.count, f.0) as usize;
        let at = f.0 as usize * self.frame_len as usize;
        self.bytes.part(at, len)
    }

    /// The same, to be written. They keep their number.
    pub fn bytes_mut(&mut self, f: Frame) -> &mut [u8]
        requires { IsUsed f.0 self.old.entries }
        ensures* writes_back { sem 𝓛 (LendsBody self.entry f.0 result) }
        ensures value { IfSome (entry_in f.0 self.old.entries) (λ e. result.now ≡ e.body) }

        // For the next call, whatever is written: the frame is in use, and the list is kept.
        ensures used { (w : List ℕ) → IsUsed f.0 (with_writes f.0 w self.old.entries) }
        ensures kept { (w : List ℕ) → IsKept (with_entries self.old (with_writes f.0 w self.old.entries)) }
    {
        let len = len_of(&self.nodes, self.count, f.0) as usize;
        let at = f.0 as usize * self.frame_len as usize;
        self.bytes.part_mut(at, len)
    }

    /// Sets how many bytes the entry has. Those that it keeps stay, and new ones are zeros.
    pub fn set_len(&mut self, f: Frame, len: u32)
        requires used { IsUsed f.0 self.old.entries }
        requires fits { len ≤ self.old.frame_len }
        ensures resized { self.new ≡ with_entries self.old (with_len f.0 len self.old.entries) }
        ensures used { IsUsed f.0 self.new.entries }
        ensures kept { IsKept self.new }
    {
        let count = self.count;
        let was = len_of(&self.nodes, count, f.0);
        let kept = was.min(len);
        let at = f.0 as usize * self.frame_len as usize + kept as usize;
        let grown = (len - kept) as usize;
        self.bytes.part_mut(at, grown).fill(0);
        put_len(&mut self.nodes, count, f.0, len);
    }

    /// Sets the mark of the entry in this frame, or takes it away.
    pub fn mark(&mut self, f: Frame, at: Option<u32>)
        requires { IsUsed f.0 self.old.entries }
        ensures marked { self.new ≡ with_entries self.old (with_mark f.0 at self.old.entries) }
        ensures used { IsUsed f.0 self.new.entries }
        ensures kept { IsKept self.new }
    {
        let count = self.count;
        put_mark(&mut self.nodes, count, f.0, at);
    }

    /// The mark of the entry in this frame.
    pub fn marked(&self, f: Frame) -> Option<u32>
        requires { IsUsed f.0 self.now.entries }
        ensures { IfSome (entry_in f.0 self.now.entries) (λ e. result ≡ e.mark) }
    {
        mark_at(&self.nodes, self.count, f.0)
    }

    /// The key of the entry that has `place` entries before it.
    pub fn key_at(&self, place: u32) -> Option<u32>
        ensures { result ≡ slice_get (keys self.now.entries) place }
    {
        if place < self.used {
            let frame = frame_at(&self.nodes, self.count, place);
            Some(key_of(&self.nodes, self.count, frame))
        } else {
            None
        }
    }

    /// How many entries there are.
    pub fn len(&self) -> u32
        ensures len { result ≡ length self.now.entries }
        ensures kept { IsKept self.now }
    {
        self.used
    }

    /// No entry is left, and no frame is in use.
    pub fn forget_all(&mut self)
        ensures forgotten { self.new ≡ with_entries self.old [] }
        ensures kept { IsKept self.new }
    {
        let count = self.count;
        clear(&mut self.nodes, count);
        self.used = 0;
    }
}

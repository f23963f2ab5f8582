//! Files in slots.
ghost use Rattle.std.specs.Prelude.{◌+◌, ◌^◌, ◌<◌, length, IfOk, OnOk, OnErr};
ghost use Rattle.cckd_shelf.specs.Faults.{Reads, Writes, Syncs};
ghost use Rattle.cckd_shelf.specs.World.{after_bind, after_write, after_torn, after_cut, after_half_cut, after_sync};
ghost use Rattle.cckd_shelf.specs.Seen.{seen, Stays, Makes, MayMake, Fails, Called, IsLength, HasBytes, IsPart};

use crate::{Failed, Shows, Slot};

/// Files by slot. Positions and lengths are bytes. A call that fails raises the count of faults of its own
/// kind, and no other: `bind`, `len` and `read` that of reads, `write` and `cut` that of writes, `sync` that
/// of syncs. A call that is Ok leaves them all.
pub trait Shelf: Shows {
    /// Gives the slot the file of this name, an absent one as an empty one. No file is made or changed, and
    /// none is synced. Another slot that had the name has none after it, and is empty.
    fn bind(&mut self, slot: Slot, name: &str) -> Result<(), Failed>
        ensures bound { OnOk result (Makes (after_bind slot name.now) (seen Self.Shows self.old) (seen Self.Shows self.new)) }
        ensures kept { OnErr result (Stays (seen Self.Shows self.old) (seen Self.Shows self.new)) }
        ensures fails { Fails Reads result (seen Self.Shows self.old) (seen Self.Shows self.new) }
        ensures called { Called (seen Self.Shows self.old) (seen Self.Shows self.new) };

    /// The file's length in bytes.
    fn len(&mut self, slot: Slot) -> Result<u64, Failed>
        ensures len { IfOk result (λ n. IsLength slot n (seen Self.Shows self.old)) }
        ensures kept { Stays (seen Self.Shows self.old) (seen Self.Shows self.new) }
        ensures fails { Fails Reads result (seen Self.Shows self.old) (seen Self.Shows self.new) }
        ensures called { Called (seen Self.Shows self.old) (seen Self.Shows self.new) };

    /// Fills `into` with the file's bytes from `pos` on.
    fn read(&mut self, slot: Slot, pos: u64, into: &mut [u8]) -> Result<(), Failed>
        requires { HasBytes slot (pos + length into.old) (seen Self.Shows self.old) }
        ensures bytes { OnOk result (IsPart slot pos (length into.old) into.new (seen Self.Shows self.old)) }
        ensures kept { Stays (seen Self.Shows self.old) (seen Self.Shows self.new) }
        ensures fails { Fails Reads result (seen Self.Shows self.old) (seen Self.Shows self.new) }
        ensures called { Called (seen Self.Shows self.old) (seen Self.Shows self.new) };

    /// Puts the bytes at `pos`, and zeros into a gap between the old end and `pos`. It makes a file that
    /// was absent.
    fn write(&mut self, slot: Slot, pos: u64, bytes: &[u8]) -> Result<(), Failed>
        requires { pos + length bytes.now < 2 ^ 63 }
        ensures written { OnOk result (Makes (after_write slot pos bytes.now) (seen Self.Shows self.old) (seen Self.Shows self.new)) }
        ensures torn { OnErr result (MayMake (after_torn slot pos bytes.now) (seen Self.Shows self.old) (seen Self.Shows self.new)) }
        ensures fails { Fails Writes result (seen Self.Shows self.old) (seen Self.Shows self.new) }
        ensures called { Called (seen Self.Shows self.old) (seen Self.Shows self.new) };

    /// Cuts the file to `len` bytes.
    fn cut(&mut self, slot: Slot, len: u64) -> Result<(), Failed>
        requires { HasBytes slot len (seen Self.Shows self.old) }
        ensures cut { OnOk result (Makes (after_cut slot len) (seen Self.Shows self.old) (seen Self.Shows self.new)) }
        ensures half { OnErr result (MayMake (after_half_cut slot len) (seen Self.Shows self.old) (seen Self.Shows self.new)) }
        ensures fails { Fails Writes result (seen Self.Shows self.old) (seen Self.Shows self.new) }
        ensures called { Called (seen Self.Shows self.old) (seen Self.Shows self.new) };

    /// What was written to the file stays after a stop.
    fn sync(&mut self, slot: Slot) -> Result<(), Failed>
        ensures synced { OnOk result (Makes (after_sync slot) (seen Self.Shows self.old) (seen Self.Shows self.new)) }
        ensures kept { OnErr result (Stays (seen Self.Shows self.old) (seen Self.Shows self.new)) }
        ensures fails { Fails Syncs result (seen Self.Shows self.old) (seen Self.Shows self.new) }
        ensures called { Called (seen Self.Shows self.old) (seen Self.Shows self.new) };
}

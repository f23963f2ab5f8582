//! The commit of a layer: what is staged is written into its file, and settled in its pieces.
ghost use Rattle.std.specs.Prelude.{◌≡◌, ◌≤◌, Err, length, take, OnOk, IfErr};
ghost use Rattle.cckd_shelf.specs.Seen.{seen, Stays};
ghost use Rattle.cckd_shelf.specs.Frame.{OnlyIn};
ghost use Rattle.cckd_space.specs.Plan.{IsSound};
ghost use Rattle.cckd_tables.specs.Device.{CountsDevice};
ghost use Rattle.cckd_layer.specs.Mounted.{CanRead};
ghost use Rattle.cckd_layer.specs.Writes.{KeepsMap, StopsWithin, SettlesCommit, IsCommitted, failed_by};
ghost use Rattle.cckd_layer.specs.Calm.{LeavesFile};
ghost use Rattle.cckd_layer.specs.Headed.{KeepsHeaders};

use crate::layer::Layer;
use crate::settling::settle_staged;
use cckd_base::{L2Entry, Unit};
use cckd_shelf::Stage;
use cckd_space::Space;
use cckd_tables::{Device, StagedEntry, StagedWord};

/// The most that can be staged.
const STAGES: usize = 256;

/// An entry of no use.
const BLANK_ENTRY: StagedEntry = StagedEntry {
    track: 0,
    entry: L2Entry {
        pos: 0,
        len: 0,
        size: 0,
    },
};

/// A word of no use.
const BLANK_WORD: StagedWord = StagedWord { group: 0, pos: 0 };

/// Puts entries to the front of others, and answers how many.
fn copy_entries(from: &[StagedEntry], into: &mut [StagedEntry]) -> usize
    requires { length from.now ≤ length into.old }
    ensures count { result ≡ length from.now }
    ensures front { take result into.new ≡ from.now }
    ensures len { length into.new ≡ length into.old }
{
    into[..from.len()].copy_from_slice(from);
    from.len()
}

/// Puts words to the front of others, and answers how many.
fn copy_words(from: &[StagedWord], into: &mut [StagedWord]) -> usize
    requires { length from.now ≤ length into.old }
    ensures count { result ≡ length from.now }
    ensures front { take result into.new ≡ from.now }
    ensures len { length into.new ≡ length into.old }
{
    into[..from.len()].copy_from_slice(from);
    from.len()
}

/// Frees what was Pending, settles what was staged, and retires what that replaced.
fn settle_commit(space: &mut Space, entries: &[StagedEntry], words: &[StagedWord])
    ensures settles { SettlesCommit (record { entries = entries.now; words = words.now }) space.old space.new }
    ensures spent { space.old.spare ≤ space.new.spare }
    ensures sound { IsSound space.new }
{
    space.release_all();
    settle_staged(space, entries, words);
}

impl<U> Layer<U> {
    /// A call failed. Where it was none that reads, nothing else may be called.
    pub(crate) fn fail(&mut self, fault: Device)
        ensures { self.new ≡ failed_by fault self.old }
    {
        match fault {
            Device::Read => {}
            Device::Write | Device::Sync => self.broken = true,
        }
    }
}

impl<U: Unit> Layer<U> {
    /// Writes all that is staged into the file, which then stays for the greatest part but not for sure.
    pub(crate) fn commit<T: Stage>(&mut self, stage: &mut T) -> Result<(), Device>
        requires { CanRead self.old (seen T.Shows stage.old) }
        ensures committed { OnOk result (IsCommitted self.old self.new) }
        ensures map { OnOk result (KeepsMap U.null_bytes self.old self.new (seen T.Shows stage.old) (seen T.Shows stage.new)) }
        ensures failed { IfErr result (λ fault. self.new ≡ failed_by fault self.old) }
        ensures read { result ≡ Err Device.Read → Stays (seen T.Shows stage.old) (seen T.Shows stage.new) }
        ensures counts { CountsDevice result (seen T.Shows stage.old).faults (seen T.Shows stage.new).faults }
        ensures stopped { StopsWithin U.null_bytes self.old (seen T.Shows stage.old) (seen T.Shows stage.new) }
        ensures leaves { OnOk result (LeavesFile self.old (seen T.Shows stage.old) (seen T.Shows stage.new)) }
        ensures headers { KeepsHeaders self.old (seen T.Shows stage.old) (seen T.Shows stage.new) }
        ensures others { OnlyIn self.old.slot (seen T.Shows stage.old) (seen T.Shows stage.new) }
    {
        let _layout = self.tables.layout();
        let mut entries = [BLANK_ENTRY; STAGES];
        let mut words = [BLANK_WORD; STAGES];
        let tracks = copy_entries(self.tables.staged_entries(), &mut entries);
        let groups = copy_words(self.tables.staged_words(), &mut words);
        match self.tables.commit(stage, self.slot) {
            Ok(()) => {
                settle_commit(&mut self.space, &entries[..tracks], &words[..groups]);
                self.hardened = false;
                Ok(())
            }
            Err(fault) => {
                self.fail(fault);
                Err(fault)
            }
        }
    }
}

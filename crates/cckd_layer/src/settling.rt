//! What a commit makes of the pieces.
ghost use Rattle.std.specs.Prelude.{◌≡◌, [], ◌∷◌};
ghost use Rattle.cckd_space.specs.Plan.{Becomes, IsSound};
ghost use Rattle.cckd_layer.specs.Acts.{settled_one, settled_all, entry_spaces, word_spaces, committed_pieces};

use cckd_base::{Extent, Owner, SEE_PARENT, TABLE_LEN};
use cckd_space::Space;
use cckd_tables::{StagedEntry, StagedWord};

/// Settles all that staged entries and words name, and retires what they replace.
pub fn settle_staged(space: &mut Space, entries: &[StagedEntry], words: &[StagedWord])
    ensures becomes { Becomes space.old space.new (committed_pieces (record { entries = entries.now; words = words.now }) space.old.pieces) space.old.size }
    ensures spent { space.new.spare ≡ space.old.spare }
    ensures sound { IsSound space.new }
{
    settle_entries(space, entries);
    settle_words(space, words);
    space.retire_all();
}

fn settle_entries(space: &mut Space, entries: &[StagedEntry])
    ensures becomes { Becomes space.old space.new (settled_all (entry_spaces entries.now) space.old.pieces) space.old.size }
    ensures spent { space.new.spare ≡ space.old.spare }
{
    for s in entries {
        settle_entry(space, *s);
    }
}

/// Settles the space of a staged entry, where it names one.
fn settle_entry(space: &mut Space, s: StagedEntry)
    ensures becomes { Becomes space.old space.new (settled_all (entry_spaces (s ∷ [])) space.old.pieces) space.old.size }
    ensures spent { space.new.spare ≡ space.old.spare }
{
    if s.entry.pos == 0 {
        return;
    }
    if s.entry.pos == SEE_PARENT {
        return;
    }
    let at = Extent {
        pos: s.entry.pos,
        len: s.entry.len as u32,
        size: s.entry.size as u32,
        owner: Owner::Track(s.track),
    };
    settle_space(space, at);
}

fn settle_words(space: &mut Space, words: &[StagedWord])
    ensures becomes { Becomes space.old space.new (settled_all (word_spaces words.now) space.old.pieces) space.old.size }
    ensures spent { space.new.spare ≡ space.old.spare }
{
    for s in words {
        let at = Extent {
            pos: s.pos,
            len: TABLE_LEN,
            size: TABLE_LEN,
            owner: Owner::Table(s.group),
        };
        settle_space(space, at);
    }
}

/// Settles the Reserved piece of a space, where it can hold the bytes in use.
fn settle_space(space: &mut Space, at: Extent)
    ensures becomes { Becomes space.old space.new (settled_one at space.old.pieces) space.old.size }
    ensures spent { space.new.spare ≡ space.old.spare }
{
    let Some(piece) = space.reserved_at(at.pos) else {
        return;
    };
    if at.len == 0 || piece.size < at.len {
        return;
    }
    space.settle(at.pos, at.len, at.owner);
}

//! The level-one words, as the file of a slot has them.
ghost use Rattle.std.specs.Prelude.{ℕ, ◌≡◌, ◌*◌, ◌<◌, length, slice_index, OnOk, OnErr};
ghost use Rattle.std.specs.Int.{w32};
ghost use Rattle.cckd_base.specs.Geometry.{area_of, IsLayout};
ghost use Rattle.cckd_base.specs.Numbers.{number_at};
ghost use Rattle.cckd_shelf.specs.Seen.{seen, HasBytes, Called};
ghost use Rattle.cckd_tables.specs.Device.{OnlyLooks};
ghost use Rattle.cckd_tables.specs.Looking.{HasWordsOf};

use crate::device::Device;
use crate::progress::word_in;
use cckd_base::{Layout, WORDS_AT};
use cckd_shelf::{Slot, Stage};

/// The bytes of as many words as an image can have.
const WORDS_LEN: usize = 16_384;

/// The words that these bytes spell.
fn decode_words(l: &Layout, bytes: &[u8], words: &mut [u32])
    requires words { length words.old ≡ l.now.groups }
    requires bytes { length bytes.now ≡ 4 * l.now.groups }
    ensures { (g : ℕ) → g < l.now.groups → slice_index words.new g ≡ number_at l.now.order w32 bytes.now (4 * g) }
{
    for group in 0..l.groups {
        words[group as usize] = word_in(l, bytes, group);
    }
}

/// The words of the file, whose bytes are read into a buffer of their length.
fn read_words_by<T: Stage>(
    stage: &mut T,
    slot: Slot,
    l: &Layout,
    bytes: &mut [u8],
    words: &mut [u32],
) -> Result<(), Device>
    requires words { length words.old ≡ l.now.groups }
    requires bytes { length bytes.old ≡ 4 * l.now.groups }
    requires area { HasBytes slot (area_of l.now.groups) (seen T.Shows stage.old) }
    ensures words { OnOk result (HasWordsOf l.now words.new slot (seen T.Shows stage.old)) }
    ensures same { OnErr result (words.new ≡ words.old) }
    ensures looks { OnlyLooks result (seen T.Shows stage.old) (seen T.Shows stage.new) }
    ensures called { Called (seen T.Shows stage.old) (seen T.Shows stage.new) }
{
    let Ok(()) = stage.read(slot, u64::from(WORDS_AT), bytes) else {
        return Err(Device::Read);
    };
    decode_words(l, bytes, words);
    Ok(())
}

/// The words of the file, in one read.
pub(crate) fn read_words<T: Stage>(
    stage: &mut T,
    slot: Slot,
    l: &Layout,
    words: &mut [u32],
) -> Result<(), Device>
    requires layout { IsLayout l.now }
    requires words { length words.old ≡ l.now.groups }
    requires area { HasBytes slot (area_of l.now.groups) (seen T.Shows stage.old) }
    ensures words { OnOk result (HasWordsOf l.now words.new slot (seen T.Shows stage.old)) }
    ensures same { OnErr result (words.new ≡ words.old) }
    ensures looks { OnlyLooks result (seen T.Shows stage.old) (seen T.Shows stage.new) }
    ensures called { Called (seen T.Shows stage.old) (seen T.Shows stage.new) }
{
    let mut bytes = [0; WORDS_LEN];
    read_words_by(stage, slot, l, &mut bytes[..4 * l.groups as usize], words)
}

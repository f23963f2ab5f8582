//! Callers of a layer, which know no more of it than its contracts: what is written and then hardened or closed is on the
//! disk, and a stop on the way leaves each track as it was or as it is written.
ghost use Rattle.std.specs.Prelude.{◌≡◌, ◌<◌, ◌≤◌, false, length, OnOk};
ghost use Rattle.cckd_shelf.specs.Seen.{seen};
ghost use Rattle.cckd_shelf.specs.Frame.{OnlyIn};
ghost use Rattle.cckd_base.specs.Geometry.{track_count};
ghost use Rattle.cckd_layer.specs.Writes.{AgreesIn};
ghost use Rattle.cckd_layer.specs.Loose.{TiedIn};
ghost use Rattle.cckd_layer.specs.Storing.{StoresTrack};
ghost use Rattle.cckd_disk_trials.specs.Callers.{written, StopsWritten, HoldsWritten, ClosesFile, StoresTied};

use cckd_base::{LayerFault, Track, Unit};
use cckd_layer::{Layer, layers_agree};
use cckd_shelf::Stage;

/// Writes a track, and makes that stay.
fn write_and_harden<U: Unit, T: Stage>(
    layer: &mut Layer<U>,
    stage: &mut T,
    t: Track,
    bytes: &[u8],
) -> Result<(), LayerFault>
    requires whole { layer.old.broken ≡ false }
    requires track { t.0 < track_count layer.old.tables.layout.geo }
    requires long { length bytes.now ≤ 65535 }
    requires agrees { AgreesIn layer.old (seen T.Shows stage.old) }
    ensures stores { OnOk result (StoresTrack U.null_bytes layer.old layer.new t.0 (U.value bytes.now) (seen T.Shows stage.old) (seen T.Shows stage.new)) }
    ensures holds { OnOk result (HoldsWritten U.null_bytes (written U.value t.0 bytes.now) layer.old (seen T.Shows stage.old) (seen T.Shows stage.new)) }
    ensures stopped { StopsWritten U.null_bytes (written U.value t.0 bytes.now) layer.old (seen T.Shows stage.old) (seen T.Shows stage.new) }
    ensures others { OnlyIn layer.old.slot (seen T.Shows stage.old) (seen T.Shows stage.new) }
{
    layers_agree();
    if let Err(fault) = layer.write(stage, t, bytes) {
        return Err(fault);
    }
    layer.harden(stage)
}

/// Writes a track, and closes the image.
fn write_and_close<U: Unit, T: Stage>(
    layer: &mut Layer<U>,
    stage: &mut T,
    t: Track,
    bytes: &[u8],
) -> Result<(), LayerFault>
    requires whole { layer.old.broken ≡ false }
    requires track { t.0 < track_count layer.old.tables.layout.geo }
    requires long { length bytes.now ≤ 65535 }
    requires agrees { AgreesIn layer.old (seen T.Shows stage.old) }
    ensures stores { OnOk result (StoresTrack U.null_bytes layer.old layer.new t.0 (U.value bytes.now) (seen T.Shows stage.old) (seen T.Shows stage.new)) }
    ensures holds { OnOk result (HoldsWritten U.null_bytes (written U.value t.0 bytes.now) layer.old (seen T.Shows stage.old) (seen T.Shows stage.new)) }
    ensures closed { OnOk result (ClosesFile layer.old (seen T.Shows stage.old) (seen T.Shows stage.new)) }
    ensures stopped { StopsWritten U.null_bytes (written U.value t.0 bytes.now) layer.old (seen T.Shows stage.old) (seen T.Shows stage.new) }
    ensures others { OnlyIn layer.old.slot (seen T.Shows stage.old) (seen T.Shows stage.new) }
{
    layers_agree();
    if let Err(fault) = layer.write(stage, t, bytes) {
        return Err(fault);
    }
    layer.close(stage)
}

/// Writes a track so many times, and makes that stay.
fn write_times<U: Unit, T: Stage>(
    layer: &mut Layer<U>,
    stage: &mut T,
    t: Track,
    bytes: &[u8],
    n: u32,
) -> Result<(), LayerFault>
    requires whole { layer.old.broken ≡ false }
    requires track { t.0 < track_count layer.old.tables.layout.geo }
    requires long { length bytes.now ≤ 65535 }
    requires agrees { AgreesIn layer.old (seen T.Shows stage.old) }
    ensures holds { 0 < n → OnOk result (HoldsWritten U.null_bytes (written U.value t.0 bytes.now) layer.old (seen T.Shows stage.old) (seen T.Shows stage.new)) }
    ensures stopped { StopsWritten U.null_bytes (written U.value t.0 bytes.now) layer.old (seen T.Shows stage.old) (seen T.Shows stage.new) }
    ensures others { OnlyIn layer.old.slot (seen T.Shows stage.old) (seen T.Shows stage.new) }
{
    layers_agree();
    for _time in 0..n {
        if let Err(fault) = layer.write(stage, t, bytes) {
            return Err(fault);
        }
    }
    layer.harden(stage)
}

/// Makes the file of a layer snug, if it isn't, writes a track, and closes the image.
pub(crate) fn complete_write_and_close<U: Unit, T: Stage>(
    layer: &mut Layer<U>,
    stage: &mut T,
    t: Track,
    bytes: &[u8],
) -> Result<(), LayerFault>
    requires whole { layer.old.broken ≡ false }
    requires track { t.0 < track_count layer.old.tables.layout.geo }
    requires long { length bytes.now ≤ 65535 }
    requires tied { TiedIn layer.old (seen T.Shows stage.old) }
    ensures stores { OnOk result (StoresTied U.null_bytes (written U.value t.0 bytes.now) layer.old layer.new (seen T.Shows stage.old) (seen T.Shows stage.new)) }
    ensures others { OnlyIn layer.old.slot (seen T.Shows stage.old) (seen T.Shows stage.new) }
{
    if let Err(fault) = layer.complete(stage) {
        return Err(fault);
    }
    write_and_close(layer, stage, t, bytes)
}

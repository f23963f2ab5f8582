//! How many stored tracks are at fault.
ghost use Rattle.std.specs.Prelude.{◌≡◌, ◌≤◌, ◌<◌, if◌then◌else◌, length, false, IfOk, IfErr};
ghost use Rattle.cckd_shelf.specs.Seen.{seen};
ghost use Rattle.cckd_base.specs.Geometry.{track_count, IsGeometry};
ghost use Rattle.cckd_base.specs.Track.{null_track};
ghost use Rattle.cckd_layer.specs.Held.{held};
ghost use Rattle.cckd_layer.specs.Mounted.{CanRead, with_tables};
ghost use Rattle.cckd_layer.specs.Reads.{OfFile, OnlyReads as OnlyLayerReads};
ghost use Rattle.cckd_tables.specs.Looking.{with_cached};
ghost use Rattle.cckd_stack.specs.Faulty.{fault_at_level, counts_as_bad, is_bad, bad_among, bad_tracks};
ghost use Rattle.cckd_stack.specs.Stacked.{stack_of, AreLayersFrom, AreWhole, OfFiles, CanReadAll, OnlyCaches, OnlyReads, with_layers, told_fault};

use crate::stack::Stack;
use cckd_base::{Geometry, LayerFault, StackFault, Track, TrackFault, Unit};
use cckd_layer::{Held, Layer};
use cckd_shelf::Stage;
use cckd_track::Ckd;

/// Whether what a check answered is a fault that counts: of a compressed track nothing can be said.
fn is_counted(answer: Result<(), TrackFault>) -> bool
    ensures { result ≡ counts_as_bad (told_fault answer) }
{
    match answer {
        Ok(()) => false,
        Err(TrackFault::Compressed { .. }) => false,
        Err(_) => true,
    }
}

/// Whether the bytes of a track are at fault at a level.
fn are_bad(geo: &Geometry, t: Track, level: u8, bytes: &[u8]) -> bool
    requires geometry { IsGeometry geo.now }
    requires track { t.0 < track_count geo.now }
    requires bytes { length bytes.now ≤ 65535 }
    ensures { result ≡ counts_as_bad (fault_at_level level geo.now t.0 bytes.now) }
{
    if level < 2 {
        return false;
    }
    if level == 2 {
        return is_counted(Ckd::check_home(geo, t, bytes));
    }
    is_counted(Ckd::check(geo, t, bytes))
}

/// Whether a layer has bytes of a track that are at fault.
fn check_track<T: Stage>(
    layer: &mut Layer<Ckd>,
    stage: &mut T,
    geo: &Geometry,
    t: Track,
    level: u8,
    out: &mut [u8],
) -> Result<bool, LayerFault>
    requires geometry { IsGeometry geo.now }
    requires track { t.0 < track_count geo.now }
    requires shape { layer.old.tables.layout.geo ≡ geo.now }
    requires whole { layer.old.broken ≡ false }
    requires room { 65536 ≤ length out.old }
    requires can_read { CanRead layer.old (seen T.Shows stage.old) }
    ensures bad { OfFile layer.old.slot (λ file. IfOk result (λ bad. bad
        ≡ is_bad level geo.now t.0 (held null_track layer.old.tables.layout layer.old.tables.stages file t.0))) (seen T.Shows stage.old) }
    ensures refusal { IfErr result (λ why. why ≡ LayerFault.ReadFault) }
    ensures rest { layer.new ≡ with_tables layer.old (with_cached layer.old.tables layer.new.tables.cached) }
    ensures can_read { CanRead layer.new (seen T.Shows stage.new) }
    ensures reads { OnlyLayerReads result (seen T.Shows stage.old) (seen T.Shows stage.new) }
{
    match layer.read_stored(stage, t, out) {
        Ok(Held::Here { len }) => Ok(are_bad(geo, t, level, &out[..usize::from(len)])),
        Ok(Held::Below) => Ok(false),
        Err(fault) => Err(fault),
    }
}

/// 1 for a track at fault.
fn one_for(bad: bool) -> u32
    ensures { result ≡ (if bad then 1 else 0) }
{
    if bad { 1 } else { 0 }
}

/// How many of a layer's tracks are at fault.
fn check_layer<T: Stage>(
    layer: &mut Layer<Ckd>,
    stage: &mut T,
    geo: &Geometry,
    level: u8,
    out: &mut [u8],
) -> Result<u32, LayerFault>
    requires geometry { IsGeometry geo.now }
    requires shape { layer.old.tables.layout.geo ≡ geo.now }
    requires whole { layer.old.broken ≡ false }
    requires room { 65536 ≤ length out.old }
    requires can_read { CanRead layer.old (seen T.Shows stage.old) }
    ensures bad { OfFile layer.old.slot (λ file. IfOk result (λ bad. bad
        ≡ bad_among level geo.now (held null_track layer.old.tables.layout layer.old.tables.stages file) (track_count geo.now))) (seen T.Shows stage.old) }
    ensures few { IfOk result (λ bad. bad ≤ 1048576) }
    ensures refusal { IfErr result (λ why. why ≡ LayerFault.ReadFault) }
    ensures rest { layer.new ≡ with_tables layer.old (with_cached layer.old.tables layer.new.tables.cached) }
    ensures can_read { CanRead layer.new (seen T.Shows stage.new) }
    ensures reads { OnlyLayerReads result (seen T.Shows stage.old) (seen T.Shows stage.new) }
{
    let mut bad = 0;
    for number in 0..geo.tracks() {
        match check_track(layer, stage, geo, Track(number), level, out) {
            Ok(found) => bad += one_for(found),
            Err(fault) => return Err(fault),
        }
    }
    Ok(bad)
}

/// How many tracks of the layers are at fault.
fn check_each<T: Stage>(
    layers: &mut [Layer<Ckd>],
    stage: &mut T,
    geo: &Geometry,
    level: u8,
    out: &mut [u8],
) -> Result<u32, StackFault>
    requires geometry { IsGeometry geo.now }
    requires some { 1 ≤ length layers.old }
    requires few { length layers.old ≤ 9 }
    requires room { 65536 ≤ length out.old }
    requires layers { AreLayersFrom geo.now 0 layers.old }
    requires whole { AreWhole layers.old }
    requires can_read { CanReadAll layers.old (seen T.Shows stage.old) }
    ensures bad { OfFiles (λ files. IfOk result (λ bad. bad ≡ bad_tracks level geo.now (stack_of null_track layers.old files))) (seen T.Shows stage.old) }
    ensures refusal { IfErr result (λ why. why ≡ StackFault.Layer LayerFault.ReadFault) }
    ensures cached { OnlyCaches layers.old layers.new }
    ensures can_read { CanReadAll layers.new (seen T.Shows stage.new) }
    ensures reads { OnlyReads result (seen T.Shows stage.old) (seen T.Shows stage.new) }
{
    if level < 2 {
        return Ok(0);
    }
    let mut bad = 0;
    let count = layers.len();
    for number in 0..count {
        let layer = &mut layers[number];
        match check_layer(layer, stage, geo, level, out) {
            Ok(more) => bad += more,
            Err(fault) => return Err(StackFault::Layer(fault)),
        }
    }
    Ok(bad)
}

impl Stack<Ckd> {
    /// How many stored tracks of all layers are at fault at a level: none below level 2, at level 2 those of another
    /// address, and at level 3 all that are no track.
    pub fn check<T: Stage>(
        &mut self,
        stage: &mut T,
        level: u8,
        out: &mut [u8],
    ) -> Result<u32, StackFault>
        requires whole { self.old.broken ≡ false }
        requires room { 65536 ≤ length out.old }
        requires can_read { CanReadAll self.old.layers (seen T.Shows stage.old) }
        ensures bad { OfFiles (λ files. IfOk result (λ bad. bad
            ≡ bad_tracks level self.old.geometry (stack_of null_track self.old.layers files))) (seen T.Shows stage.old) }
        ensures refusal { IfErr result (λ why. why ≡ StackFault.Layer LayerFault.ReadFault) }

        // What it does beside: of the layers only cached tables change, and everything can be read again.
        ensures rest { self.new ≡ with_layers self.old self.new.layers }
        ensures cached { OnlyCaches self.old.layers self.new.layers }
        ensures can_read { CanReadAll self.new.layers (seen T.Shows stage.new) }
        ensures reads { OnlyReads result (seen T.Shows stage.old) (seen T.Shows stage.new) }
    {
        let geo = self.geometry;
        check_each(self.layers.as_mut_slice(), stage, &geo, level, out)
    }
}

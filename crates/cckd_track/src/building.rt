//! A track that is built record by record.
ghost use Rattle.std.specs.Prelude.{◌≡◌, ℕ, List, [], ◌∷◌, ◌+◌, ◌<◌, ◌≤◌, length};
ghost use Rattle.cckd_base.specs.declared.geometry.Geometry.{Geometry as Shape};
ghost use Rattle.cckd_base.specs.Geometry.{track_count, address_of, IsLayout};
ghost use Rattle.cckd_base.specs.Track.{CountKeyData, null_record_zero};

use crate::writing::{END_MARK, home_bytes, put_record, put_record_zero};
use cckd_base::{Addr, Layout, Track, TrackFault, put_bytes};

/// The length of a count, and of the end mark.
const COUNT_LEN: usize = 8;

/// A track that is built in a buffer, record by record, with its own address in each count. `new` writes the
/// home address and a record zero of eight zero bytes, `add` a record behind those that are there, and
/// `finish` the end mark.
#[derive(Drop)]
pub struct Builder<'a> {
    out: &'a mut [u8],
    at: usize,
    address: Addr,
    max: u32,
}

impl<'a> Builder<'a> {
    ghost use Rattle.cckd_track.specs.Builder.{Builds, IsBuilding, Adds, IsBuilt, record_at_address};

    /// A builder of which home address and record zero stand in the buffer.
    fn begin(l: &Layout, t: Track, out: &'a mut [u8]) -> Builder<'a>
        requires layout { IsLayout l.now }
        requires track { t.0 < track_count l.now.geo }
        requires room { 65536 ≤ length out.old }
        ensures begun { Builds l.now.geo t.0 (null_record_zero (address_of l.now.geo t.0) ∷ []) out.old result }
        ensures same_reference { result.out.ghost_name ≡ out.entry.ghost_name }
    {
        let address = l.geo.addr(t);
        let home = put_bytes(out, 0, &home_bytes(address));
        let at = put_record_zero(out, home, address);
        Builder {
            out,
            at,
            address,
            max: l.geo.track_size,
        }
    }

    /// Begins track `t` at the front of a buffer.
    pub fn new(l: &Layout, t: Track, out: &'a mut [u8]) -> Builder<'a>
        requires layout { IsLayout l.now }
        requires track { t.0 < track_count l.now.geo }
        requires room { 65536 ≤ length out.old }
        ensures begun { Builds l.now.geo t.0 (null_record_zero (address_of l.now.geo t.0) ∷ []) out.old result }
        ensures building { IsBuilding result }
        ensures same_reference { result.out.ghost_name ≡ out.entry.ghost_name }
    {
        Builder::begin(l, t, out)
    }

    /// Adds a record. TooLong where the track with it and the end mark is longer than the track size; nothing
    /// is changed then.
    pub fn add(&mut self, num: u8, key: &[u8], body: &[u8]) -> Result<(), TrackFault>
        requires building { IsBuilding self.old }
        requires number { 0 < num }
        requires key { length key.now ≤ 255 }
        requires body { length body.now ≤ 65535 }
        ensures added { (geo : Shape) (t : ℕ) (records : List CountKeyData) (before : List ℕ) → Builds geo t records before self.old
            → Adds geo t records (record_at_address (address_of geo t) num key.now body.now) before result self.new }
        ensures building { IsBuilding self.new }
        ensures same_reference { self.new.out.ghost_name ≡ self.old.out.ghost_name }
    {
        let len = self.at + COUNT_LEN + key.len() + body.len() + COUNT_LEN;
        let max = self.max;
        if max < len as u32 {
            return Err(TrackFault::TooLong {
                len: len as u32,
                max,
            });
        }
        self.at = put_record(self.out, self.at, self.address, num, key, body);
        Ok(())
    }

    /// Writes the end mark, and answers the length of the track.
    pub fn finish(self) -> u16
        requires { IsBuilding self }
        ensures { (geo : Shape) (t : ℕ) (records : List CountKeyData) (before : List ℕ) → Builds geo t records before self.entry
            → IsBuilt geo t records before result self.exit.0.now }
    {
        let Builder { out, at, .. } = self;
        put_bytes(out, at, &END_MARK) as u16
    }
}

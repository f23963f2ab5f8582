//! The mounting of a layer: from the file of a slot to what the layer keeps of it.
ghost use Rattle.std.specs.Prelude.{◌≡◌, ◌+◌, ◌≤◌, [], length, min, replicate, None, IfOk, OnOk, IfErr};
ghost use Rattle.cckd_shelf.specs.Seen.{seen, Tells, IsLength, HasBytes};
ghost use Rattle.cckd_shelf.specs.World.{IsSure};
ghost use Rattle.cckd_base.specs.Geometry.{area_of, IsLayout};
ghost use Rattle.cckd_base.specs.Image.{IsSnug};
ghost use Rattle.cckd_base.specs.Header.{headers_of, header_fault, layout_of};
ghost use Rattle.cckd_base.specs.Survey.{header_space};
ghost use Rattle.cckd_image.specs.Image.{identifiers_of, header_of};
ghost use Rattle.cckd_space.specs.Pieces.{Has, pieces_of, used_piece};
ghost use Rattle.cckd_space.specs.Plan.{IsSound};
ghost use Rattle.cckd_tables.specs.Scan.{AreSpaces};
ghost use Rattle.cckd_tables.specs.Tables.{HasWords};
ghost use Rattle.cckd_layer.specs.Stands.{Stands, nothing_staged};
ghost use Rattle.cckd_layer.specs.Reads.{OfFile};
ghost use Rattle.cckd_layer.specs.Mounted.{HasHeaders, HasSpaces, IsFileCause, IsLookCause, IsHeaderRefusal, IsSurveyCause, IsLoadCause, IsOpenCause, IsFresh, IsOf, OnlyLooks, OnlySyncs, CountsOpen, CanRead, kept_view, reserve};
ghost use Rattle.cckd_layer.specs.Loose.{Tied};

use crate::layer::Layer;
use cckd_base::{Extent, FORMAT_LIMIT, Layout, OpenFault, ScanFault};
use cckd_image::{ImageHeader, Roles, decode};
use cckd_shelf::{Slot, Stage};
use cckd_space::Space;
use cckd_tables::{Tables, scan};
use std::alloc::Global;
use std::marker::PhantomData;

/// Bytes of the two headers.
const HEADERS: usize = 1024;

/// What the headers of a file say, and the file's length.
#[derive(Clone, Copy)]
pub(crate) struct Found {
    header: ImageHeader,
    pub(crate) layout: Layout,
    len: u32,
}

/// How much of the headers a file of this length has.
fn front_of(len: u64) -> usize
    ensures { result ≡ min len 1024 }
{
    len.min(1024) as usize
}

/// Reads the headers of a file to a buffer of zeros, as far as the file has them, and answers the file's length.
fn read_headers<T: Stage>(stage: &mut T, slot: Slot, headers: &mut [u8]) -> Result<u64, OpenFault>
    requires zeros { headers.old ≡ replicate HEADERS 0 }
    ensures headers { OfFile slot (λ file. OnOk result (headers.new ≡ headers_of file)) (seen T.Shows stage.old) }
    ensures length { OfFile slot (λ file. IfOk result (λ len. len ≡ length file)) (seen T.Shows stage.old) }
    ensures cause { IfErr result (λ why. why ≡ OpenFault.ReadFault) }
    ensures looks { OnlyLooks result (seen T.Shows stage.old) (seen T.Shows stage.new) }
{
    let Ok(len) = stage.len(slot) else {
        return Err(OpenFault::ReadFault);
    };
    let Ok(()) = stage.read(slot, 0, &mut headers[..front_of(len)]) else {
        return Err(OpenFault::ReadFault);
    };
    Ok(len)
}

/// What these headers of a file of `len` bytes say, or their first fault.
fn read_out(headers: &[u8; 1024], len: u64, slot: Slot, roles: Roles) -> Result<Found, OpenFault>
    ensures layout { IfOk result (λ found. IsLayout found.layout) }
    ensures area { IfOk result (λ found. area_of found.layout.groups ≤ found.len) }
    ensures sound { OnOk result (header_fault (identifiers_of roles) headers.now len ≡ None) }
    ensures header { IfOk result (λ found. found.header ≡ header_of headers.now) }
    ensures says { IfOk result (λ found. found.layout ≡ layout_of headers.now) }
    ensures length { IfOk result (λ found. found.len ≡ len) }
    ensures refusal { IfErr result (IsHeaderRefusal slot (header_fault (identifiers_of roles) headers.now len)) }
{
    match decode(headers, len, roles) {
        Ok(header) => Ok(Found {
            header,
            layout: header.layout(),
            len: len as u32,
        }),
        Err(fault) => Err(OpenFault::Header {
            slot: slot.get(),
            fault,
        }),
    }
}

/// What the headers of the file say, or their first fault.
pub(crate) fn find<T: Stage>(stage: &mut T, slot: Slot, roles: Roles) -> Result<Found, OpenFault>
    ensures layout { IfOk result (λ found. IsLayout found.layout) }
    ensures area { IfOk result (λ found. area_of found.layout.groups ≤ found.len) }
    ensures headed { OfFile slot (λ file. IfOk result (λ found. HasHeaders roles found.header found.layout found.len file)) (seen T.Shows stage.old) }
    ensures cause { IfErr result (IsFileCause roles slot (seen T.Shows stage.old)) }
    ensures why { IfErr result (IsLookCause roles slot (seen T.Shows stage.old)) }
    ensures looks { OnlyLooks result (seen T.Shows stage.old) (seen T.Shows stage.new) }
{
    let mut headers = [0; HEADERS];
    match read_headers(stage, slot, &mut headers) {
        Ok(len) => read_out(&headers, len, slot, roles),
        Err(fault) => Err(fault),
    }
}

/// The spaces that the tables of a file have in use, or their first misfit.
fn survey<T: Stage>(
    alloc: Global,
    stage: &mut T,
    slot: Slot,
    l: &Layout,
    len: u32,
) -> Result<Vec<Extent>, OpenFault>
    requires layout { IsLayout l.now }
    requires area { area_of l.now.groups ≤ len }
    requires length { IsLength slot len (seen T.Shows stage.old) }
    ensures survey { OfFile slot (λ file. IfOk result (λ spaces. HasSpaces l.now spaces.items file)) (seen T.Shows stage.old) }
    ensures spaces { IfOk result (λ spaces. AreSpaces l.now.groups len spaces.items) }
    ensures cause { IfErr result (IsSurveyCause slot l.now (seen T.Shows stage.old)) }
    ensures looks { OnlyLooks result (seen T.Shows stage.old) (seen T.Shows stage.new) }
{
    match scan(alloc, stage, slot, l, len) {
        Ok(spaces) => Ok(spaces),
        Err(ScanFault::Misfit(fault)) => Err(OpenFault::Scan {
            slot: slot.get(),
            fault,
        }),
        Err(ScanFault::ReadFault) => Err(OpenFault::ReadFault),
        Err(ScanFault::Memory) => Err(OpenFault::Memory),
    }
}

/// How many bytes are written in one call at most.
const BUFFER: usize = 65536;

/// How many pieces a layer has room for.
fn reserve(l: &Layout) -> usize
    requires { IsLayout l.now }
    ensures { result ≡ reserve l.now }
{
    2 * (l.geo.tracks() + l.groups + 1024) as usize + 1
}

/// The space of a file of which these spaces are in use.
fn plan(
    alloc: Global,
    used: &[Extent],
    l: &Layout,
    size: u32,
    limit: u32,
) -> Result<Space, OpenFault>
    requires layout { IsLayout l.now }
    requires spaces { AreSpaces l.now.groups size used.now }
    ensures pieces { IfOk result (λ plan. plan.pieces ≡ pieces_of 0 used.now size) }
    ensures sized { IfOk result (λ plan. plan.size ≡ size) }
    ensures sound { IfOk result IsSound }
    ensures limit { IfOk result (λ plan. plan.limit ≡ limit) }
    ensures room { IfOk result (λ plan. reserve l.now ≤ plan.spare + length plan.pieces) }
    ensures area { IfOk result (λ plan. Has (used_piece (header_space l.now.groups)) plan.pieces) }
    ensures cause { IfErr result (λ why. why ≡ OpenFault.Memory) }
{
    let spare = reserve(l).saturating_sub(used.len()) as u32;
    match Space::from_used(alloc, used, size, limit, spare) {
        Ok(space) => Ok(space),
        Err(_) => Err(OpenFault::Memory),
    }
}

/// The tables of a file with this layout, of which no table is kept yet.
fn load<T: Stage>(alloc: Global, stage: &mut T, slot: Slot, l: &Layout) -> Result<Tables, OpenFault>
    requires layout { IsLayout l.now }
    requires area { HasBytes slot (area_of l.now.groups) (seen T.Shows stage.old) }
    ensures layout { IfOk result (λ tables. tables.layout ≡ l.now) }
    ensures staged { IfOk result (λ tables. tables.stages ≡ nothing_staged) }
    ensures cached { IfOk result (λ tables. tables.cached ≡ []) }
    ensures words { OfFile slot (λ file. IfOk result (λ tables. HasWords l.now tables.words file)) (seen T.Shows stage.old) }
    ensures cause { IfErr result IsLoadCause }
    ensures looks { OnlyLooks result (seen T.Shows stage.old) (seen T.Shows stage.new) }
{
    let Ok(mut tables) = Tables::new(alloc, l) else {
        return Err(OpenFault::Memory);
    };
    match tables.load_words(stage, slot) {
        Ok(()) => Ok(tables),
        Err(_) => Err(OpenFault::ReadFault),
    }
}

/// What a file says of itself: its headers, and the spaces that it has in use.
fn examine<T: Stage>(
    alloc: Global,
    stage: &mut T,
    slot: Slot,
    roles: Roles,
) -> Result<(Found, Vec<Extent>), OpenFault>
    ensures layout { IfOk result (λ x. IsLayout x.0.layout) }
    ensures spaces { IfOk result (λ x. AreSpaces x.0.layout.groups x.0.len x.1.items) }
    ensures headed { OfFile slot (λ file. IfOk result (λ x. HasHeaders roles x.0.header x.0.layout x.0.len file)) (seen T.Shows stage.old) }
    ensures used { OfFile slot (λ file. IfOk result (λ x. HasSpaces x.0.layout x.1.items file)) (seen T.Shows stage.old) }
    ensures cause { IfErr result (IsFileCause roles slot (seen T.Shows stage.old)) }
    ensures looks { OnlyLooks result (seen T.Shows stage.old) (seen T.Shows stage.new) }
{
    let found = match find(stage, slot, roles) {
        Ok(found) => found,
        Err(fault) => return Err(fault),
    };
    match survey(alloc, stage, slot, &found.layout, found.len) {
        Ok(used) => Ok((found, used)),
        Err(fault) => Err(fault),
    }
}

/// The layer of the slot's file.
fn open<U, T: Stage>(
    alloc: Global,
    stage: &mut T,
    slot: Slot,
    roles: Roles,
    limit: u32,
) -> Result<Layer<U>, OpenFault>
    ensures fresh { IfOk result (IsFresh slot limit) }
    ensures opened { OfFile slot (λ file. IfOk result (IsOf roles file)) (seen T.Shows stage.old) }
    ensures cause { IfErr result (IsFileCause roles slot (seen T.Shows stage.old)) }
    ensures looks { OnlyLooks result (seen T.Shows stage.old) (seen T.Shows stage.new) }
{
    let (found, used) = match examine(alloc, stage, slot, roles) {
        Ok(examined) => examined,
        Err(fault) => return Err(fault),
    };
    let space = match plan(alloc, used.as_slice(), &found.layout, found.len, limit) {
        Ok(space) => space,
        Err(fault) => return Err(fault),
    };
    let buffer = match vec![in alloc; 0; BUFFER] {
        Ok(buffer) => buffer,
        Err(_) => return Err(OpenFault::Memory),
    };
    match load(alloc, stage, slot, &found.layout) {
        Ok(tables) => Ok(Layer {
            slot,
            header: found.header,
            tables,
            space,
            marked: false,
            hardened: true,
            broken: false,
            buffer,
            of: PhantomData,
        }),
        Err(fault) => Err(fault),
    }
}

impl<U> Layer<U> {
    /// Mounts the file of a slot, which is synced first, as a layer that may grow to `limit` bytes.
    pub fn mount<T: Stage>(
        alloc: Global,
        stage: &mut T,
        slot: Slot,
        roles: Roles,
        limit: u32,
    ) -> Result<Layer<U>, OpenFault>
        requires limit { limit ≤ FORMAT_LIMIT }
        ensures fresh { IfOk result (IsFresh slot limit) }
        ensures opened { OfFile slot (λ file. IfOk result (IsOf roles file)) (seen T.Shows stage.old) }

        // Where each space ends inside the file, the layer stands.
        ensures stands { OfFile slot (λ file. IfOk result (λ layer. IsSnug layer.tables.layout file
            → Stands (kept_view layer) slot (seen T.Shows stage.new).world)) (seen T.Shows stage.old) }
        ensures can_read { IfOk result (λ layer. CanRead layer (seen T.Shows stage.new)) }

        // In any case it is tied to its file.
        ensures tied { Tells (seen T.Shows stage.old) → IsSure (seen T.Shows stage.old).world → IfOk result (λ layer. Tied layer (seen T.Shows stage.new).world) }

        // Why there is no layer, and what was done.
        ensures cause { IfErr result (IsOpenCause roles slot (seen T.Shows stage.old)) }
        ensures counts { CountsOpen result (seen T.Shows stage.old).faults (seen T.Shows stage.new).faults }
        ensures syncs { OnlySyncs slot result (seen T.Shows stage.old) (seen T.Shows stage.new) }
    {
        let Ok(()) = stage.sync(slot) else {
            return Err(OpenFault::SyncFault);
        };
        open(alloc, stage, slot, roles, limit)
    }
}

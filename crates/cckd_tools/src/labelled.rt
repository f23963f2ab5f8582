//! The bytes of a labelled base.
ghost use Rattle.std.specs.Prelude.{◌≡◌, ◌+◌, ◌-◌, ◌≤◌, ◌++◌, length, take, replicate, vec_len, IfOk, IfErr};
ghost use Rattle.cckd_base.specs.Geometry.{IsLayout};
ghost use Rattle.cckd_base.specs.declared.order.Order.TheVariants.{Little};
ghost use Rattle.cckd_base.specs.Entry.{entry_bytes};
ghost use Rattle.cckd_image.specs.Image.{header_bytes};
ghost use Rattle.cckd_tools.specs.Label.{label_table, label_entry, label_header, label_size, label_length, label_track, label_image, image_with};

use crate::fault::InitFault;
use crate::label::put_label;
use cckd_base::{L2Entry, Layout, Order, TABLE_LEN, put_bytes};
use cckd_image::{ImageHeader, Roles};
use std::alloc::Global;

/// Bytes of the labelled track.
const LABEL_LEN: u16 = 313;

/// Bytes of the space that it stands in.
const LABEL_SPACE: u16 = 320;

/// Bytes of a buffer for a track.
const BUFFER: usize = 65536;

/// Where the table of group 0 stands: at the first multiple of 8 behind the header area.
fn table_at(l: &Layout) -> u32
    requires { IsLayout l.now }
    ensures value { result ≡ label_table l.now }
    ensures low { result ≤ 17416 }
{
    (l.area() as u32).div_ceil(8) * 8
}

/// The length of a labelled base.
pub(crate) fn label_size(l: &Layout) -> u32
    requires { IsLayout l.now }
    ensures { result ≡ label_size l.now }
{
    table_at(l) + TABLE_LEN + u32::from(LABEL_SPACE)
}

/// The headers of a labelled base.
fn label_headers(l: &Layout) -> [u8; 1024]
    requires { IsLayout l.now }
    ensures { result ≡ header_bytes (label_header l.now) }
{
    let size = label_size(l);
    let used = l.area() as u32 + TABLE_LEN + u32::from(LABEL_LEN);
    let mut header = ImageHeader::fresh(l, Roles::Either);
    header.cckd.size = size;
    header.cckd.used = used;
    header.cckd.free_imbed = size - used;
    header.encode()
}

/// The entry of the labelled track, which stands behind the table.
fn label_entry(l: &Layout) -> [u8; 8]
    requires { IsLayout l.now }
    ensures { result ≡ entry_bytes Little (label_entry l.now) }
{
    let entry = L2Entry {
        pos: table_at(l) + TABLE_LEN,
        len: LABEL_LEN,
        size: LABEL_SPACE,
    };
    entry.encode(Order::Little)
}

/// Puts the parts of a labelled base into a list of zeros, each at its place.
fn fill(file: &mut [u8], table: usize, headers: &[u8], word: &[u8], entry: &[u8], track: &[u8])
    requires zeros { file.old ≡ replicate (table + 2368) 0 }
    requires table { 1028 ≤ table }
    requires small { table ≤ 17416 }
    requires headers { length headers.now ≡ 1024 }
    requires word { length word.now ≡ 4 }
    requires entry { length entry.now ≡ 8 }
    requires track { length track.now ≡ 320 }
    ensures { file.new ≡ headers.now ++ (word.now ++ (replicate (table - 1028) 0 ++ (entry.now ++ (replicate 2040 0 ++ track.now)))) }
{
    let words_at = put_bytes(file, 0, headers);
    put_bytes(file, words_at, word);
    put_bytes(file, table, entry);
    put_bytes(file, table + TABLE_LEN as usize, track);
}

/// So many zeros.
fn zeros(alloc: Global, count: usize) -> Result<Vec<u8>, InitFault>
    ensures zeros { IfOk result (λ all. all.items ≡ replicate count 0) }
    ensures count { IfOk result (λ all. vec_len all ≡ count) }
    ensures memory { IfErr result (λ why. why ≡ InitFault.Memory) }
{
    match vec![in alloc; 0; count] {
        Ok(all) => Ok(all),
        Err(_) => Err(InitFault::Memory),
    }
}

/// Builds the labelled track in a buffer of zeros, of which its space is the front.
fn build(l: &Layout, serial: &[u8; 6], out: &mut [u8])
    requires layout { IsLayout l.now }
    requires fits { label_length ≤ l.now.geo.track_size }
    requires zeros { out.old ≡ replicate BUFFER 0 }
    ensures space { take 320 out.new ≡ label_track l.now.geo serial.now ++ replicate 7 0 }
    ensures length { length out.new ≡ BUFFER }
{
    let Ok(_len) = put_label(l, serial, out) else {
        unreachable!()
    };
}

/// A buffer of which the labelled track's space is the front.
fn label_space(alloc: Global, l: &Layout, serial: &[u8; 6]) -> Result<Vec<u8>, InitFault>
    requires layout { IsLayout l.now }
    requires fits { label_length ≤ l.now.geo.track_size }
    ensures space { IfOk result (λ track. take 320 track.items ≡ label_track l.now.geo serial.now ++ replicate 7 0) }
    ensures length { IfOk result (λ track. length track.items ≡ BUFFER) }
    ensures memory { IfErr result (λ why. why ≡ InitFault.Memory) }
{
    match zeros(alloc, BUFFER) {
        Ok(mut track) => {
            build(l, serial, track.as_mut_slice());
            Ok(track)
        }
        Err(fault) => Err(fault),
    }
}

/// Puts a labelled base into a list of zeros.
fn put_image(file: &mut [u8], l: &Layout, track: &[u8])
    requires layout { IsLayout l.now }
    requires zeros { file.old ≡ replicate (label_size l.now) 0 }
    requires track { length track.now ≡ 320 }
    ensures bytes { file.new ≡ image_with l.now track.now }
    ensures length { length file.new ≡ label_size l.now }
{
    let table = table_at(l);
    let headers = label_headers(l);
    let word = Order::Little.u32_bytes(table);
    let entry = label_entry(l);
    fill(file, table as usize, &headers, &word, &entry, track);
}

/// The bytes of a labelled base.
pub(crate) fn label_image(alloc: Global, l: &Layout, serial: &[u8; 6]) -> Result<Vec<u8>, InitFault>
    requires layout { IsLayout l.now }
    requires fits { label_length ≤ l.now.geo.track_size }
    ensures bytes { IfOk result (λ file. file.items ≡ label_image l.now serial.now) }
    ensures length { IfOk result (λ file. length file.items ≡ label_size l.now) }
    ensures memory { IfErr result (λ why. why ≡ InitFault.Memory) }
{
    let track = match label_space(alloc, l, serial) {
        Ok(track) => track,
        Err(fault) => return Err(fault),
    };
    let mut file = match zeros(alloc, table_at(l) as usize + 2368) {
        Ok(file) => file,
        Err(fault) => return Err(fault),
    };
    put_image(file.as_mut_slice(), l, track.as_slice().split_at(320).0);
    Ok(file)
}

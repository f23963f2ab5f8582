//! Parts of slices that are copied.
ghost use Rattle.std.specs.Prelude.{◌≡◌, ◌+◌, ◌≤◌, ◌<◌, ◌^◌, [], length, take, min};
ghost use Rattle.cckd_shelf.specs.Files.{bytes_at};

/// Fills `into` with the bytes from `pos` on, if there are so many.
pub(crate) fn copy_part(from: &[u8], pos: u64, into: &mut [u8])
    ensures { pos + length into.old ≤ length from.now → into.new ≡ bytes_at from.now pos (length into.old) }
{
    let at = pos as usize;
    if at <= from.len() && into.len() <= from.len() - at {
        into.copy_from_slice(&from[at..at + into.len()]);
    }
}

/// Fills the front of `into`, as far as there are bytes, and answers how many it copied.
pub(crate) fn copy_front(from: &[u8], into: &mut [u8]) -> usize
    ensures count { result ≡ min (length from.now) (length into.old) }
    ensures front { take result into.new ≡ take result from.now }
{
    let n = from.len().min(into.len());
    into[..n].copy_from_slice(&from[..n]);
    n
}

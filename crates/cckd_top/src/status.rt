/// The status that a run ends with, the greatest of its lines': 0 where no reply was a refusal, 1 where one was, 2 for
/// bad words, 3 for files that don't mount, 7 for a fault of a device, the source or the output, 8 for want of memory.
#[derive(Clone, Copy, Debug, PartialEq, Eq)]
pub struct Status {
    pub code: u8,
}

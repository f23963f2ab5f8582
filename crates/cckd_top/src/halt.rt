use cckd_base::OpenFault;

/// Why a run ends before it looks at its script.
#[derive(Clone, Copy, Debug, PartialEq, Eq)]
pub enum Halt {
    /// The word of this number is wrong or missing.
    BadWords(u64),
    /// The files don't open to a disk.
    Files(OpenFault),
}

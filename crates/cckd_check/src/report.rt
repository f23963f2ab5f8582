//! What a check of an image answers.
use crate::damages::Damages;
use cckd_base::HeaderFault;

/// What a check of an image found.
#[derive(Debug, Drop)]
pub struct Report {
    /// All that is amiss at the level of the check: misfits in the order of the survey, then the chain of free
    /// spaces, then tracks in their order.
    pub found: Damages,
    /// How many stored tracks are compressed, so that nothing is known of them: none below level 2.
    pub unread: u32,
}

/// Why there is no report.
#[derive(Clone, Copy, Debug, PartialEq, Eq)]
pub enum LookFault {
    /// The file has no headers of an image.
    Header(HeaderFault),
    /// A call that reads failed.
    ReadFault,
    /// Memory was wanted.
    Memory,
}

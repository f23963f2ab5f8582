//! The node of a frame, of a bucket, or of the head, and pointers to nodes.
ghost use Rattle.std.specs.Prelude.{◌≡◌, ⊤};
ghost use Rattle.cckd_frames.specs.Links.{link_of, with_link};

use std::alloc::AllocError;
use std::marker::{Send, Sync};

/// Where a node lies. It owns nothing.
pub(crate) struct NodePtr {
    pub(crate) ptr: *mut Node,
}

impl Clone for NodePtr {
    ghost is_clone = { λ x y. y ≡ x };

    ghost is_infallible = { λ _. ⊤ };

    fn clone(&self) -> Result<NodePtr, AllocError> {
        Ok(*self)
    }
}

impl Copy for NodePtr {}

unsafe impl Send for NodePtr {}

unsafe impl Sync for NodePtr {}

/// A link of a node: in the ring by recency, and in the ring of its bucket.
#[derive(Clone, Copy)]
pub(crate) enum Way {
    Older,
    Newer,
    After,
    Before,
}

/// Only a bucket's node has members, and only a frame's a key, a length and a mark.
#[derive(Clone, Copy)]
pub(crate) struct Node {
    older: NodePtr,
    newer: NodePtr,
    after: NodePtr,
    before: NodePtr,
    pub(crate) key: u32,
    pub(crate) members: u32,
    pub(crate) len: u32,
    pub(crate) mark: Option<u32>,
    pub(crate) number: u32,
}

impl Node {
    ghost use Rattle.cckd_frames.specs.Links.{fresh};

    /// A node that is linked to `to` alone.
    pub(crate) fn new(to: NodePtr, number: u32) -> Node
        ensures { result ≡ fresh to number }
    {
        Node {
            older: to,
            newer: to,
            after: to,
            before: to,
            key: 0,
            members: 0,
            len: 0,
            mark: None,
            number,
        }
    }

    pub(crate) fn link(&self, way: Way) -> NodePtr
        ensures { result ≡ link_of way self.now }
    {
        match way {
            Way::Older => self.older,
            Way::Newer => self.newer,
            Way::After => self.after,
            Way::Before => self.before,
        }
    }

    pub(crate) fn set_link(&mut self, way: Way, to: NodePtr)
        ensures { self.new ≡ with_link way to self.old }
    {
        match way {
            Way::Older => self.older = to,
            Way::Newer => self.newer = to,
            Way::After => self.after = to,
            Way::Before => self.before = to,
        }
    }
}

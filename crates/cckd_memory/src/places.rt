//! Files by name, and the slots that have them.
ghost use Rattle.std.specs.Prelude.{◌≡◌};
ghost use Rattle.cckd_shelf.specs.Events.{is_name};
ghost use Rattle.cckd_memory.specs.Inside.{no_place, without};

use crate::Bytes;
use std::alloc::Global;

/// A slot of a stage in memory. The file of a slot with a name lies among the files.
#[derive(Debug, Drop)]
pub(crate) struct Place {
    pub(crate) name: Option<Bytes>,
    /// What the slot holds where it has no name.
    pub(crate) loose: Bytes,
}

impl Place {
    pub(crate) fn new(alloc: Global) -> Place
        ensures { result ≡ no_place }
    {
        Place {
            name: None,
            loose: Bytes::empty(alloc),
        }
    }

    pub(crate) fn has_name(&self, name: &[u8]) -> bool
        ensures { result ≡ is_name self.now.name name.now }
    {
        match &self.name {
            Some(own) => own.get() == name,
            None => false,
        }
    }

    /// Makes it a slot without a name or bytes, if it has this name.
    pub(crate) fn lose(&mut self, alloc: Global, name: &[u8])
        ensures { self.new ≡ without name.now self.old }
    {
        if self.has_name(name) {
            *self = Place::new(alloc);
        }
    }
}

//! Where those sleep who wait for their ticket.
ghost use Rattle.std.specs.Prelude.{◌<◌, vec_len};

use std::alloc::{AllocError, Global};
use std::sync::Wait;
use std::sync::atomic::AtomicU64;
use std::sync::atomic::Ordering::SeqCst;

/// A bell for each caller. A ticket's bell is told by the remainder, so that no two who wait share one.
#[derive(Drop)]
pub struct Bells {
    bells: Vec<AtomicU64>,
    ghost some: { 0 < vec_len bells },
}

impl Bells {
    pub fn new(alloc: Global, callers: u32) -> Result<Bells, AllocError>
        requires { 0 < callers }
    {
        let mut bells = Vec::with_capacity(alloc, callers as usize)?;
        for _ in 0..callers {
            bells.push(AtomicU64::new(0))?;
        }
        Ok(Bells { bells })
    }

    fn bell(&self, ticket: u64) -> &AtomicU64 {
        &self.bells[(ticket % self.bells.len() as u64) as usize]
    }

    /// How often the ticket's bell was rung, in its low 32 bits.
    pub fn rung(&self, ticket: u64) -> u32 {
        (self.bell(ticket).load(SeqCst) & 0xffff_ffff) as u32
    }

    /// Sleeps until the bell is rung, if it was rung as often as `rung` says. It may also return for no reason.
    pub fn sleep<R: Wait>(&self, rt: &R, ticket: u64, rung: u32) {
        self.bell(ticket).park(rt, rung);
    }

    pub fn ring(&self, ticket: u64) {
        let bell = self.bell(ticket);
        bell.fetch_add(1, SeqCst);
        bell.wake_all();
    }
}

//! Damage that contracts see as a list.
ghost use Rattle.std.specs.Prelude.{◌≡◌, ◌++◌, [], ◌∷◌, map, length, OnOk, IfOk};
ghost use Rattle.cckd_base.specs.declared.damage.Damage.TheVariants as amiss;

use cckd_base::{Damage, Memory, Misfit};
use std::alloc::Global;
use std::marker::Model;

/// What a check finds amiss, in order. Contracts see the list.
#[derive(Debug, Drop)]
pub struct Damages {
    items: Vec<Damage>,
}

impl Model for Damages {
    ghost use Rattle.std.specs.Prelude.{List};
    ghost use Rattle.cckd_base.specs.declared.damage.Damage.{Damage};

    ghost Value = { List Damage };

    ghost view = { λ d. d.items.items };
}

impl Damages {
    pub fn get(&self) -> &[Damage]
        ensures { result.now ≡ self.now }
    {
        self.items.as_slice()
    }

    /// Nothing yet. Takes no memory.
    pub(crate) fn new(alloc: Global) -> Damages
        ensures { result ≡ [] }
    {
        Damages {
            items: Vec::new(alloc),
        }
    }

    /// One more, behind the others.
    pub(crate) fn push(&mut self, damage: Damage) -> Result<(), Memory>
        ensures { OnOk result (self.new ≡ self.old ++ damage ∷ []) }
    {
        match self.items.push(damage) {
            Ok(()) => Ok(()),
            Err(refused) => Err(Memory::from(refused)),
        }
    }
}

/// Puts the misfits of a survey behind the damage.
fn add_misfits(damages: &mut Damages, misfits: &[Misfit]) -> Result<(), Memory>
    ensures { OnOk result (damages.new ≡ damages.old ++ map amiss.Misfit misfits.now) }
{
    for misfit in misfits {
        match damages.push(Damage::Misfit(*misfit)) {
            Ok(()) => {}
            Err(fault) => return Err(fault),
        }
    }
    Ok(())
}

/// The misfits of a survey as damage.
pub(crate) fn damages_of(alloc: Global, misfits: &[Misfit]) -> Result<Damages, Memory>
    ensures { IfOk result (λ d. d ≡ map amiss.Misfit misfits.now) }
{
    let mut damages = Damages::new(alloc);
    match add_misfits(&mut damages, misfits) {
        Ok(()) => Ok(damages),
        Err(fault) => Err(fault),
    }
}

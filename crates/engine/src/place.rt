// Addresses that a program gives: the one way from them to a word of a store. Codes 2 and 3.
ghost use Rattle.std.specs.Prelude.{◌≡◌, List, ℕ};
ghost use Rattle.machine.specs.Store.{place_of};
ghost use Rattle.machine.specs.View.{located};
ghost use Rattle.machine.specs.Instruction.{pushind, copyword};
ghost use Rattle.engine.specs.Did.{sees, OnStores};
ghost use Rattle.engine.specs.Found.{found};

use crate::sight::{Common, Own, Sight};
use machine::{Machine, Regs};
use word::Fault;

// Where a named word stands: in the one store or in the other.
#[derive(Clone, Copy)]
pub(crate) enum Place {
    Common(usize),
    Own(usize),
}

// In a job only L to C + p - 1 may be named.
#[tactic(auto, using(machine::proofs::Laws::cases), unfolding(machine::specs::View::located))]
pub(crate) fn locate(v: &Sight, a: u16) -> Option<Place>
    ensures { (c q : List ℕ) → found result ≡ located (sees v.now c q) a }
{
    let r = v.regs;
    if r.in_job && (a < v.floor || usize::from(r.c) + usize::from(r.p) <= usize::from(a)) {
        return None;
    }
    place_of(a)
}

// The place of an address that may be named.
#[tactic(auto, using(machine::proofs::Laws::cases), unfolding(machine::specs::Store::place_of))]
fn place_of(a: u16) -> Option<Place>
    ensures { found result ≡ place_of a }
{
    if a < Machine::OWN {
        Some(Place::Common(usize::from(a)))
    } else if a < Machine::CEILING {
        Some(Place::Own(usize::from(a - Machine::OWN)))
    } else {
        None
    }
}

// 2 PUSHIND: the word that the top address names takes its place.
#[tactic(auto, using(machine::proofs::Laws::cases), unfolding(machine::specs::Instruction::pushind))]
pub(crate) fn pushind(v: &Sight, common: &Common, own: &mut Own) -> Result<Regs, Fault>
    ensures { OnStores result v.now common.now common.now own.old own.new pushind }
{
    let [a] = v.words::<1>(own)?;
    let w = match locate(v, a).ok_or(Fault::Pointer)? {
        Place::Common(k) => common[k],
        Place::Own(k) => own[k],
    };
    own[usize::from(v.regs.s - Machine::OWN)] = w;
    Ok(v.at(v.regs.address + 1, v.regs.s))
}

// 3 COPYWORD: pop a value, then the address where it is stored.
#[tactic(auto, using(machine::proofs::Laws::cases), unfolding(machine::specs::Instruction::copyword))]
pub(crate) fn copyword(v: &Sight, common: &mut Common, own: &mut Own) -> Result<Regs, Fault>
    ensures { OnStores result v.now common.old common.new own.old own.new copyword }
{
    let [w, a] = v.words::<2>(own)?;
    match locate(v, a).ok_or(Fault::Pointer)? {
        Place::Common(k) => common[k] = w,
        Place::Own(k) => own[k] = w,
    }
    Ok(v.at(v.regs.address + 1, v.regs.s + 2))
}

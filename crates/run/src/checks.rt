// The table's checks of a state, of what is lent and of a done event.
ghost use Rattle.std.specs.Prelude.{◌≡◌, ◌&&◌, not, eqb};
ghost use Rattle.image.specs.Refusal.{◌then◌, check_says};
ghost use Rattle.image.specs.Read.{refuse};
ghost use Rattle.machine.specs.Offer.{lengths_fit, refusal7, refusal8, refusal9};

use image::Refusal;
use machine::Machine;

// 6: a lent store has the wrong length.
#[tactic(auto, using(crate::proofs::Chain::by_rows))]
pub fn check_stores(common: usize, private: usize) -> Result<(), Refusal>
    ensures { check_says result ≡ refuse 6 (not (lengths_fit common private)) }
{
    if common == Machine::COMMON && private == Machine::PRIVATE {
        Ok(())
    } else {
        Err(Refusal::Lent)
    }
}

// 6: a lent store has the wrong length, or the code is not n words.
#[tactic(auto, using(crate::proofs::Chain::by_rows))]
fn check_lent(common: usize, private: usize, code: usize, n: usize) -> Result<(), Refusal>
    ensures { check_says result ≡ refuse 6 (not (lengths_fit common private && eqb code n)) }
{
    check_stores(common, private)?;
    if code == n {
        Ok(())
    } else {
        Err(Refusal::Lent)
    }
}

// 7: state not sound.
fn check_sound(m: Machine) -> Result<(), Refusal>
    ensures { check_says result ≡ refusal7 m }
{
    if sound::is_sound(m) {
        Ok(())
    } else {
        Err(Refusal::Unsound)
    }
}

// 8: machine stopped.
#[tactic(auto, using(machine::proofs::Laws::cases))]
fn check_going(m: Machine) -> Result<(), Refusal>
    ensures { check_says result ≡ refusal8 m }
{
    if m.stop == Machine::GOING {
        Ok(())
    } else {
        Err(Refusal::Stopped)
    }
}

// 7 and 8, in the table's order: the first refusal returns at once.
#[tactic(auto, using(image::proofs::Laws::chain))]
pub(crate) fn check_machine(m: Machine) -> Result<(), Refusal>
    ensures { check_says result ≡ (refusal7 m then refusal8 m) }
{
    check_sound(m)?;
    check_going(m)
}

// 6 to 8, in the table's order, for a run.
#[tactic(auto, using(image::proofs::Laws::chain))]
pub(crate) fn check_run(
    m: Machine,
    code: usize,
    common: usize,
    private: usize,
) -> Result<(), Refusal>
    ensures { check_says result ≡ (refuse 6 (not (lengths_fit common private && eqb code m.length)) then refusal7 m then refusal8 m) }
{
    check_lent(common, private, code, usize::from(m.length))?;
    check_machine(m)
}

// 9: bad done event: status above 6, no such device, device not busy.
#[tactic(auto, using(machine::proofs::Laws::cases, crate::proofs::Chain::done))]
fn check_done(m: Machine, d: u16, status: u16) -> Result<(), Refusal>
    ensures { check_says result ≡ refusal9 m d status }
{
    if 6 < status || 4 < d {
        return Err(Refusal::Done);
    }
    if m.devices[usize::from(d)].process < Machine::NOBODY {
        Ok(())
    } else {
        Err(Refusal::Done)
    }
}

// 6 to 9, in the table's order, for a done event.
#[tactic(auto, using(image::proofs::Laws::chain))]
pub(crate) fn check_event(
    m: Machine,
    d: u16,
    status: u16,
    common: usize,
    private: usize,
) -> Result<(), Refusal>
    ensures { check_says result ≡ (refuse 6 (not (lengths_fit common private)) then refusal7 m then refusal8 m then refusal9 m d status) }
{
    check_stores(common, private)?;
    check_sound(m)?;
    check_going(m)?;
    check_done(m, d, status)
}

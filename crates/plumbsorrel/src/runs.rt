// Step and run.
ghost use Rattle.std.specs.Prelude.{◌≡◌};
ghost use Rattle.image.specs.Refusal.{◌then◌, check_says};
ghost use Rattle.plumbsorrel.specs.Offers.{code_fits, lent_code, unknown, leaves, c_step, c_run};
ghost use Rattle.plumbsorrel.specs.Asked.{Says};

use crate::{number, state};
use image::Refusal;
use machine::Machine;

// The code is n words: n is word 818 where there are as many words as a state has, else there is no n.
fn code_fits(code: &[u16], state: &[u16]) -> bool
    ensures { result ≡ code_fits code.now state.now }
{
    state.len() != layout::WORDS || code.len() == usize::from(state[818])
}

// 6: a lent store has the wrong length, or the code is not n words.
fn check_lent(code: &[u16], common: &[u16], private: &[u16], state: &[u16]) -> Result<(), Refusal>
    ensures { check_says result ≡ lent_code code.now common.now private.now state.now }
{
    run::check_stores(common.len(), private.len())?;
    if code_fits(code, state) {
        Ok(())
    } else {
        Err(Refusal::Lent)
    }
}

// 6 and 7, in the table's order.
fn asked(code: &[u16], common: &[u16], private: &[u16], state: &[u16]) -> Result<Machine, Refusal>
    ensures { Says result (lent_code code.now common.now private.now state.now then unknown state.now) state.now }
{
    check_lent(code, common, private, state)?;
    state::known(state)
}

// A run of one instruction.
#[unsafe(no_mangle)]
pub extern "C" fn plumbsorrel_step(
    code: &[u16],
    common: &mut [u16],
    private: &mut [u16],
    state: &mut [u16],
) -> u64
    ensures { leaves result state.new common.new private.new ≡ c_step code.now common.old private.old state.old }
{
    plumbsorrel_run(code, 1, common, private, state)
}

#[unsafe(no_mangle)]
pub extern "C" fn plumbsorrel_run(
    code: &[u16],
    budget: u32,
    common: &mut [u16],
    private: &mut [u16],
    state: &mut [u16],
) -> u64
    ensures { leaves result state.new common.new private.new ≡ c_run code.now budget common.old private.old state.old }
{
    match asked(code, common, private, state) {
        Ok(m) => state::put_back(run::run(m, code, budget, common, private), state),
        Err(r) => number::of_refusal(r),
    }
}

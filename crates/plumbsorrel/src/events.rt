// Tick, bell and done. Each is a `match` of its own: of a closure that is dropped uncalled, where the checks refuse, a contract cannot say
// that the stores that it holds stay as they are.
ghost use Rattle.std.specs.Prelude.{◌≡◌, []};
ghost use Rattle.image.specs.Refusal.{◌then◌};
ghost use Rattle.plumbsorrel.specs.Offers.{leaves, lent_stores, unknown, c_tick, c_bell, c_done};
ghost use Rattle.plumbsorrel.specs.Asked.{Says};

use crate::{number, state};
use image::Refusal;
use machine::Machine;

// This and `plumbsorrel_bell` are twins: two exported names.
#[unsafe(no_mangle)]
pub extern "C" fn plumbsorrel_tick(state: &mut [u16]) -> u64
    ensures { leaves result state.new [] [] ≡ c_tick state.old }
{
    match state::known(state) {
        Ok(m) => state::put_back(run::tick(m), state),
        Err(r) => number::of_refusal(r),
    }
}

#[unsafe(no_mangle)]
pub extern "C" fn plumbsorrel_bell(state: &mut [u16]) -> u64
    ensures { leaves result state.new [] [] ≡ c_bell state.old }
{
    match state::known(state) {
        Ok(m) => state::put_back(run::bell(m), state),
        Err(r) => number::of_refusal(r),
    }
}

// 6 and 7, in the table's order.
fn asked(common: &[u16], private: &[u16], state: &[u16]) -> Result<Machine, Refusal>
    ensures { Says result (lent_stores common.now private.now then unknown state.now) state.now }
{
    run::check_stores(common.len(), private.len())?;
    state::known(state)
}

#[unsafe(no_mangle)]
pub extern "C" fn plumbsorrel_done(
    device: u16,
    status: u16,
    arg: u16,
    common: &mut [u16],
    private: &mut [u16],
    state: &mut [u16],
) -> u64
    ensures { leaves result state.new common.new private.new ≡ c_done device status arg common.old private.old state.old }
{
    match asked(common, private, state) {
        Ok(m) => state::put_back(run::done(m, device, status, arg, common, private), state),
        Err(r) => number::of_refusal(r),
    }
}

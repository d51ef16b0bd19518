// The record of a busy device.
ghost use Rattle.std.specs.Prelude.{◌≡◌, ◌||◌, not, ◌++◌, ◌≤◌, ltb, length, drop};
ghost use Rattle.image.specs.Refusal.{check_says};
ghost use Rattle.image.specs.Read.{refuse};
ghost use Rattle.machine.specs.Device.{is_busy};
ghost use Rattle.plumbsorrel.specs.Record.{record_checks, record_leaves, c_record};
ghost use Rattle.plumbsorrel.specs.Asked.{Says};

use crate::{number, state};
use image::Refusal;
use machine::Machine;

// 9: no such device, or it is not busy.
#[tactic(auto, using(machine::proofs::Laws::cases))]
fn check_busy(m: Machine, d: u16) -> Result<(), Refusal>
    ensures { check_says result ≡ refuse 9 (ltb 4 d || not (is_busy m d)) }
{
    let device = m.devices.get(usize::from(d));
    if device.is_some_and(|x| x.process < Machine::NOBODY) {
        Ok(())
    } else {
        Err(Refusal::Done)
    }
}

// 6, 7, 9 and 10, in the table's order: the first refusal returns at once.
#[tactic(auto, using(crate::proofs::Laws::asking), unfolding(crate::specs::Record::record_checks))]
fn asked(
    d: u16,
    common: &[u16],
    private: &[u16],
    state: &[u16],
    room: usize,
) -> Result<Machine, Refusal>
    ensures { Says result (record_checks d common.now private.now state.now room) state.now }
{
    run::check_stores(common.len(), private.len())?;
    let m = state::known_sound(state)?;
    check_busy(m, d)?;
    image::check_room(room, 4)?;
    Ok(m)
}

// The four words stand first; the rest stays.
fn copy(words: &[u16], out: &mut [u16])
    requires { (length words.now ≡ 4) × (4 ≤ length out.old) }
    ensures { out.new ≡ words.now ++ drop 4 out.old }
{
    out[..4].copy_from_slice(words);
}

// The record's operation, status, arg and unit, of a busy device.
#[unsafe(no_mangle)]
pub extern "C" fn plumbsorrel_record<'a>(
    device: u16,
    common: &'a [u16],
    private: &'a [u16],
    state: &[u16],
    out: &mut [u16],
) -> u64
    ensures { record_leaves result out.new ≡ c_record device common.now private.now state.now out.old }
{
    match asked(device, common, private, state, out.len()) {
        Ok(m) => {
            copy(kernel::record(m, device as u8, common, private), out);
            0
        }
        Err(r) => number::of_refusal(r),
    }
}

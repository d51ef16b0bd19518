// The done event: the status is stored, the argument only where the operation was 0 and the status is 0; the process wakes.
ghost use Rattle.std.specs.Prelude.{◌≡◌, ℕ, ◌≤◌, ◌<◌};
ghost use Rattle.machine.specs.State.{device};
ghost use Rattle.machine.specs.Device.{recorded};
ghost use Rattle.kernel.specs.Did.{world, ends};

use crate::io::{is_held, store};
use machine::{Device, Machine};

// The status and the argument in the record of device x.
#[tactic(auto, unfolding(machine::specs::Device::recorded))]
fn write_record(
    x: Device,
    status: u16,
    arg: u16,
    common: &mut [u16; Machine::COMMON],
    private: &mut [u16; Machine::PRIVATE],
)
    requires { (x.process < 10) × (x.address ≤ 4092) }
    ensures { (m : Machine) (d : ℕ) → device m d ≡ x → world m common.new private.new ≡ recorded (world m common.old private.old) d status arg }
{
    store(x.process, x.address + 1, status, common, private);
    if x.operation == 0 && status == 0 {
        store(x.process, x.address + 2, arg, common, private);
    }
}

// A device is done; nothing happens where there is none of the number, it is not busy, its record is not whole in one store, or a
// store has the wrong length.
pub fn device_done(
    m: Machine,
    d: u8,
    status: u16,
    arg: u16,
    common: &mut [u16],
    private: &mut [u16],
) -> Machine
    ensures { world result common.new private.new ≡ ends (world m common.old private.old) d status arg }
{
    let Some(common) = common.as_mut_array() else {
        return m;
    };
    let Some(private) = private.as_mut_array() else {
        return m;
    };
    let Some(&x) = m.devices.get(usize::from(d)) else {
        return m;
    };
    if !is_held(x) {
        return m;
    }
    write_record(x, status, arg, common, private);
    moves::device_end(m, d).select()
}

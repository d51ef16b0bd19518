// Devices: how one starts, and how one ends.
ghost use Rattle.std.specs.Prelude.{◌≡◌, eqb, get_or, set};
ghost use Rattle.notation.specs.If.{if};
ghost use Rattle.machine.specs.State.{no_process, with_class};
ghost use Rattle.machine.specs.Device.{device_start, device_end};

use crate::ready::{set_running, wake};
use machine::{Device, Machine, Processes};

// Class 1, but 0 while holding a gate. Beside the machine's `class_without`: another test, other classes.
#[tactic(auto, using(machine::proofs::Laws::cases))]
fn class_after(holds: u8) -> u8
    ensures { result ≡ if (eqb holds 0) 1 0 }
{
    if holds == 0 { 1 } else { 0 }
}

// Of a device that is not there nothing changes. A guarded write, as set_ended's, of another part.
#[tactic(auto, using(machine::proofs::Laws::past))]
fn put(devices: &mut [Device; 5], d: u8, x: Device)
    ensures { devices.new ≡ set devices.old d x }
{
    if d < 5 {
        devices[usize::from(d)] = x;
    }
}

// The caller waits and the device starts: the operation and the record's address are kept.
#[tactic(auto, using(machine::proofs::Laws::past), unfolding(machine::specs::Device::device_start, machine::specs::Device::with_device))]
pub fn device_start(mut m: Machine, d: u8, operation: u8, address: u16) -> Machine
    ensures { result ≡ device_start m d operation address }
{
    let x = Device {
        process: m.running,
        operation,
        address,
    };
    set_running(&mut m, Machine::NOBODY);
    put(&mut m.devices, d, x);
    m
}

// The class of h after its device ended.
#[tactic(auto, using(machine::proofs::Laws::past))]
fn set_class_after(processes: &mut Processes, h: u8)
    ensures { processes.new ≡ set processes.old h (with_class (get_or processes.old h no_process) (if (eqb (get_or processes.old h no_process).holds 0) 1 0)) }
{
    if h < Machine::PROCESSES {
        let p = &mut processes[usize::from(h)];
        p.class = class_after(p.holds);
    }
}

// Class 1 after a device ends, but 0 while holding a gate; the process wakes. Of a device that is not there it is process 0.
#[tactic(auto, using(machine::proofs::Laws::past), unfolding(machine::specs::Device::device_end, machine::specs::Device::with_device, machine::specs::Classes::set_class, machine::specs::State::with_process))]
pub fn device_end(mut m: Machine, d: u8) -> Machine
    ensures { result ≡ device_end m d }
{
    let h = m.devices.get(usize::from(d)).map_or(0, |x| x.process);
    if d < 5 {
        m.devices[usize::from(d)].process = Machine::NOBODY;
    }
    set_class_after(&mut m.processes, h);
    wake(&mut m, h);
    m
}

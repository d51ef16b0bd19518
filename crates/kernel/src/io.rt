// Call 11: I/O, and the record of a busy device.
ghost use Rattle.std.specs.Prelude.{◌≡◌, ◌&&◌, ◌||◌, not, ◌+◌, ◌≤◌, ◌<◌, eqb, ltb};
ghost use Rattle.machine.specs.declared.Machine.{Machine};
ghost use Rattle.machine.specs.Store.{own, whole, place_of, word_in, common_with, private_with};
ghost use Rattle.machine.specs.Device.{is_present, is_busy};
ghost use Rattle.machine.specs.Call.{io_begins, call11};
ghost use Rattle.kernel.specs.Did.{world, OnStores, Told, Begins, answered, handed_back};

use crate::answer::{Act, Decision};
use crate::caller::{Caller, own};
use crate::fit::Fit;
use machine::{Device, Machine};
use word::Fault;

// Four words that lie whole in one store.
fn is_whole(a: u16) -> bool
    ensures { result ≡ whole a }
{
    a <= 2044 || Machine::OWN <= a && a <= 4092
}

// Whether a device is busy, with a record that lies whole in one store.
pub(crate) fn is_held(x: Device) -> bool
    ensures { result ≡ (whole x.address && ltb x.process 10) }
{
    is_whole(x.address) && x.process < Machine::NOBODY
}

// The two stores stay two parameters: with a struct of two `&mut` each contract would have to say that it still holds the same borrows.

// The word at an address of process i.
#[tactic(auto, unfolding(machine::specs::Store::place_of))]
fn fetch(i: u8, a: u16, common: &[u16; Machine::COMMON], private: &[u16; Machine::PRIVATE]) -> u16
    requires { (i < 10) × (a < 4096) }
    ensures { result ≡ word_in (place_of a) i common.now private.now }
{
    if a < Machine::OWN {
        common[usize::from(a)]
    } else {
        private[own(i, a)]
    }
}

// A word at an address of process i.
#[tactic(auto, unfolding(machine::specs::Store::place_of))]
pub(crate) fn store(
    i: u8,
    a: u16,
    x: u16,
    common: &mut [u16; Machine::COMMON],
    private: &mut [u16; Machine::PRIVATE],
)
    requires { (i < 10) × (a < 4096) }
    ensures { (common.new ≡ common_with (place_of a) x common.old) × (private.new ≡ private_with (place_of a) i x private.old) }
{
    if a < Machine::OWN {
        common[usize::from(a)] = x;
    } else {
        private[own(i, a)] = x;
    }
}

// Whether device d, 0 to 4, is present: bits 0 to 4.
fn is_present(present: u16, d: u16) -> bool
    requires { d ≤ 4 }
    ensures { (m : Machine) → m.present ≡ present → result ≡ is_present m d }
{
    (present >> d) % 2 == 1
}

// Control (3) on device 0, if present, busy or not.
fn is_for_bell(present: u16, d: u16, operation: u16) -> bool
    ensures { (m : Machine) → m.present ≡ present → result ≡ (eqb d 0 && eqb operation 3 && is_present m 0) }
{
    d == 0 && operation == 3 && is_present(present, 0)
}

// Absent or busy.
fn is_refused(present: u16, devices: [Device; 5], d: u16) -> bool
    requires { d ≤ 4 }
    ensures { (m : Machine) → m.present ≡ present → m.devices ≡ devices → result ≡ (not (is_present m d) || is_busy m d) }
{
    !is_present(present, d) || devices[usize::from(d)].process < Machine::NOBODY
}

// The caller waits for the bell, goes on, or waits for the device; the status stands in its record.
fn begin(
    who: Fit,
    d: u16,
    operation: u16,
    a: u16,
    common: &mut [u16; Machine::COMMON],
    private: &mut [u16; Machine::PRIVATE],
) -> Decision
    requires { Begins who.caller d operation a private.old }
    ensures { (m : Machine) → Told who.caller m → OnStores result m common.old common.new private.old private.new (λ w. io_begins w d operation) }
{
    let Caller {
        number,
        present,
        devices,
        ..
    } = who.caller;
    let s = who.caller.process.regs.s + 2;
    if is_for_bell(present, d, operation) {
        store(number, a + 1, 0, common, private);
        return who.goes(s, Act::WaitBell);
    }
    if is_refused(present, devices, d) {
        store(number, a + 1, 3, common, private);
        return who.goes(s, Act::Go);
    }
    store(number, a + 1, 0, common, private);
    who.goes(s, Act::Start(d as u8, operation as u8, a))
}

// 11 I/O: pop record address, device.
pub(crate) fn call11(
    who: Fit,
    common: &mut [u16; Machine::COMMON],
    private: &mut [u16; Machine::PRIVATE],
) -> Result<Decision, Fault>
    ensures { (m : Machine) → Told who.caller m → OnStores (answered who.caller result) m common.old common.new private.old private.new call11 }
{
    let [a, d] = who.words::<2>(private)?;
    if !is_whole(a) {
        return Err(Fault::Pointer);
    }
    let operation = fetch(who.caller.number, a, common, private);
    if 4 < d || 3 < operation {
        return Err(Fault::Range);
    }
    Ok(begin(who, d, operation, a, common, private))
}

// The record of a busy device, a part of the common or of the private store.
pub fn record<'a>(m: Machine, d: u8, common: &'a [u16], private: &'a [u16]) -> &'a [u16]
    ensures { result.now ≡ handed_back (world m common.now private.now) d }
{
    if common.len() != Machine::COMMON || private.len() != Machine::PRIVATE {
        return &common[..0];
    }
    let Some(&x) = m.devices.get(usize::from(d)) else {
        return &common[..0];
    };
    if !is_held(x) {
        return &common[..0];
    }
    if x.address < Machine::OWN {
        let a = usize::from(x.address);
        &common[a..a + 4]
    } else {
        let s = own(x.process, x.address);
        &private[s..s + 4]
    }
}

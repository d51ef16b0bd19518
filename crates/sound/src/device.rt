// The devices.
ghost use Rattle.std.specs.Prelude.{◌≡◌, ◌≤◌, ◌/◌, ◌%◌, ◌^◌, eqb, length};
ghost use Rattle.std.specs.List.{list_all, enumerate_from};
ghost use Rattle.sound.specs.Test.{device_in};

use machine::{Device, Machine};

// "A busy device is present and has one waiting process, with operation 0 to 3 and a record whole in one store".
fn is_ok(x: &Device, created: u8, present: bool) -> bool
    ensures { result ≡ device_in created present x.now }
{
    let whole = x.address <= 2044 || (Machine::OWN <= x.address && x.address <= 4092);
    (x.process == Machine::NOBODY || x.process < created)
        && (x.process >= Machine::NOBODY || (present && x.operation <= 3 && whole))
}

// All five; "present devices (bits 0 to 4)".
pub(crate) fn are_ok(devices: &[Device], created: u8, present: u16) -> bool
    requires { length devices.now ≤ 5 }
    ensures { result ≡ list_all (λ x. device_in created (eqb (present / 2 ^ x.0 % 2) 1) x.1) (enumerate_from 0 devices.now) }
{
    devices
        .iter()
        .enumerate()
        .all(|(d, x)| is_ok(x, created, (present >> d) % 2 == 1))
}

// A created process.
ghost use Rattle.std.specs.Prelude.{◌≡◌, ◌≤◌, get_or, length};
ghost use Rattle.std.specs.List.{list_all, enumerate_from};
ghost use Rattle.machine.specs.Sound.{marks_ok, job_ok};
ghost use Rattle.sound.specs.Tally.{Room};
ghost use Rattle.sound.specs.Test.{class_for, limits_in, process_in};

use crate::held;
use image::Header;
use machine::{Machine, Process, Regs};

// "Class 0 exactly if holding, otherwise 1 or 2".
fn has_its_class(holds: u8, class: u8) -> bool
    ensures { result ≡ class_for holds class }
{
    if holds == 0 {
        (1..=2).contains(&class)
    } else {
        class == 0
    }
}

// "V is 0 to 1,024, (..), L <= S <= B <= C, code address at most n"; "Slices are 0 to 190 (..), all multiples of 10".
#[tactic(auto, unfolding(machine::specs::Sound::marks_ok))]
fn has_its_marks(p: &Process, n: u16) -> bool
    ensures { result ≡ marks_ok n p.now }
{
    p.variables <= Header::MOST_VARIABLES
        && u32::from(Machine::OWN) + u32::from(p.variables) <= u32::from(p.regs.s)
        && p.regs.s <= p.regs.b
        && p.regs.b <= p.regs.c
        && p.regs.address <= n
        && p.slice <= Machine::LAST_UNITS
        && p.slice % Machine::UNITS == 0
}

// "Outside a job C is 4096 and no stop is pending; in one C is the saved S, saved S <= saved B <= 4096, C + p <= 4096, the saved
// address is at most n, and a pending reason is 16 to 255".
#[tactic(auto, unfolding(machine::specs::Sound::job_ok))]
fn job_is_ok(r: &Regs, n: u16) -> bool
    ensures { result ≡ job_ok n r.now }
{
    if r.in_job {
        r.c == r.saved_s
            && r.saved_s <= r.saved_b
            && r.saved_b <= Machine::CEILING
            && u32::from(r.c) + u32::from(r.p) <= u32::from(Machine::CEILING)
            && r.saved_address <= n
            && (r.reason == 0 || (Machine::FIRST_REASON..=Machine::LAST_REASON).contains(&r.reason))
    } else {
        r.c == Machine::CEILING && r.reason == 0
    }
}

// "Ended processes and jobs hold none; jobs run or are ready. A process waiting or delayed at a gate holds at most 7".
fn keeps_limits(here: u16, gates: u16, holds: u8, ended: bool, in_job: bool) -> bool
    ensures { result ≡ limits_in here gates holds ended in_job }
{
    (!(ended || in_job) || holds == 0)
        && (!in_job || here == 1)
        && (gates == 0 || holds <= Machine::LAST_HELD)
}

// It runs or is ready so often, is at gates so often, and elsewhere.
#[tactic(auto, unfolding(crate::specs::Test::process_in))]
fn is_ok(
    n: u16,
    holders: &[u8; Machine::GATES as usize],
    q: u8,
    here: u16,
    gates: u16,
    elsewhere: u16,
    p: &Process,
) -> bool
    requires { (here ≤ 1000) × (gates ≤ 1000) × (elsewhere ≤ 1000) }
    ensures { result ≡ process_in n holders.now q here gates elsewhere p.now }
{
    // "Each created process is in exactly one place (..). No queue repeats one."
    here + gates + elsewhere + u16::from(p.ended) == 1
        && held::is_ok(holders, q, &p.held, p.holds)
        && has_its_class(p.holds, p.class)
        && keeps_limits(here, gates, p.holds, p.ended, p.regs.in_job)
        && has_its_marks(p, n)
        && job_is_ok(&p.regs, n)
}

// The created processes. With bytes for numbers, by `(0..).zip(processes)`, the search did not find that each is below 10.
pub(crate) fn are_ok(
    n: u16,
    holders: &[u8; Machine::GATES as usize],
    here: &[u16; Machine::PROCESSES as usize],
    gates: &[u16; Machine::PROCESSES as usize],
    elsewhere: &[u16; Machine::PROCESSES as usize],
    processes: &[Process],
) -> bool
    requires { (length processes.now ≤ 10) × Room 10 1000 here.now × Room 10 1000 gates.now × Room 10 1000 elsewhere.now }
    ensures { result ≡ list_all (λ x. process_in n holders.now x.0 (get_or here.now x.0 0) (get_or gates.now x.0 0) (get_or elsewhere.now x.0 0) x.1) (enumerate_from 0 processes.now) }
{
    processes.iter().enumerate().all(|(q, p)| is_ok(
        n,
        holders,
        q as u8,
        here[q],
        gates[q],
        elsewhere[q],
        p,
    ))
}

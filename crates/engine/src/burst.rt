// The burst: instructions of one process until its budget, a kernel call, a fault or its job's end.
ghost use Rattle.std.specs.Prelude.{◌≡◌, Bool, List, ℕ, ◌≤◌, length};
ghost use Rattle.machine.specs.Sound.{job_ok};
ghost use Rattle.laws.specs.Marks.{Fit};
ghost use Rattle.engine.specs.Did.{seen, sees};
ghost use Rattle.engine.specs.Burst.{burst_says, goes_on, bursts, fit};

use crate::perform::instruct;
use crate::sight::{Common, Own, Sight, Stop};
use machine::{Machine, Regs};
use word::Fault;

// How a burst ends. Five cases and no Result: `burst_says` and the theorem same_burst name them.
#[derive(Clone, Copy)]
pub enum End {
    Budget,
    Call(u16),
    Fault(Fault),
    Job,
    Unfit,
}

#[derive(Clone, Copy)]
pub struct Burst {
    pub regs: Regs,
    pub count: u32,
    pub end: End,
}

// The job's registers in their ranges. As sound's, over usize; neither crate stands on the other.
#[tactic(auto, unfolding(machine::specs::Sound::job_ok))]
fn job_is_ok(n: usize, r: Regs) -> bool
    ensures { result ≡ job_ok n r }
{
    if r.in_job {
        r.c == r.saved_s
            && r.saved_s <= r.saved_b
            && r.saved_b <= Machine::CEILING
            && usize::from(r.c) + usize::from(r.p) <= Machine::CEILING_AT
            && usize::from(r.saved_address) <= n
            && (r.reason == 0
                || Machine::FIRST_REASON <= r.reason && r.reason <= Machine::LAST_REASON)
    } else {
        r.c == Machine::CEILING && r.reason == 0
    }
}

// What a sound state gives.
fn is_fit(code: &[u16], floor: u16, r: Regs, common: usize, own: usize) -> bool
    ensures { (h : Bool) (c q : List ℕ) → common ≡ length c → own ≡ length q → result ≡ fit (seen code.now floor h r c q) }
{
    let n = code.len();
    common == Machine::COMMON
        && own == Machine::PART
        && n <= Machine::MOST_CODE
        && usize::from(r.address) <= n
        && Machine::OWN <= floor
        && floor <= r.s
        && r.s <= r.b
        && r.b <= r.c
        && job_is_ok(n, r)
}

// Up to a budget of instructions.
pub fn run_burst(
    code: &[u16],
    floor: u16,
    holding: bool,
    r: Regs,
    budget: u32,
    common: &mut [u16],
    own: &mut [u16],
) -> Burst
    ensures { burst_says result common.new own.new ≡ bursts budget (seen code.now floor holding r common.old own.old) }
{
    if !is_fit(code, floor, r, common.len(), own.len()) {
        return Burst {
            regs: r,
            count: 0,
            end: End::Unfit,
        };
    }
    let common = common.as_mut_array().unwrap();
    let own = own.as_mut_array().unwrap();
    let v = Sight {
        code,
        floor,
        holding,
        regs: r,
    };
    go_on(v, budget, common, own)
}

// The hot loop: nothing in it copies more than the registers.
fn go_on(mut v: Sight, budget: u32, common: &mut Common, own: &mut Own) -> Burst
    requires { Fit (sees v common.old own.old) × (length v.code.now ≤ 16256) }
    ensures { burst_says result common.new own.new ≡ goes_on 0 budget (sees v.entry common.old own.old) }
{
    for count in 0..budget {
        match instruct(&v, common, own) {
            Ok(next) => {
                let over = v.regs.in_job && !next.in_job;
                v.regs = next;
                if over {
                    return Burst {
                        regs: next,
                        count: count + 1,
                        end: End::Job,
                    };
                }
            }
            Err(Stop::Fault(f)) => {
                return Burst {
                    regs: v.regs,
                    count,
                    end: End::Fault(f),
                };
            }
            Err(Stop::Call(k)) => {
                return Burst {
                    regs: v.regs,
                    count,
                    end: End::Call(k),
                };
            }
        }
    }
    Burst {
        regs: v.regs,
        count: budget,
        end: End::Budget,
    }
}

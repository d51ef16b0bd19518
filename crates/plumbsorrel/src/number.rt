// Answers as numbers.
ghost use Rattle.std.specs.Prelude.{◌≡◌, ◌≤◌, ◌<◌, get_or};
ghost use Rattle.image.specs.Refusal.{number_of, named, refused_by};
ghost use Rattle.run.specs.Said.{end_of, answer_of};
ghost use Rattle.plumbsorrel.specs.Number.{end_number, answer_number, reply_number, block_named};

use image::Refusal;
use run::Ended;

// How it ended, and the device that has started. No `From`: both types are other crates'.
fn of_end(e: Ended) -> u64
    ensures { (result ≡ end_number (end_of e)) × (result ≤ 65535) }
{
    match e {
        Ended::Onward => 0,
        Ended::Idle => 1,
        Ended::Starting(d) => 2 + 256 * u64::from(d),
        Ended::Stopped => 3,
    }
}

// How it ended and the count, or the refusal's number.
pub(crate) fn of_answer(reply: Result<Ended, Refusal>, count: u32) -> u64
    ensures { result ≡ answer_number (answer_of reply) count }
{
    match reply {
        Ok(e) => 256 * of_end(e) + 4294967296 * u64::from(count),
        Err(r) => of_refusal(r),
    }
}

// The refusal's number.
pub(crate) fn of_refusal(r: Refusal) -> u64
    ensures { result ≡ number_of r }
{
    u64::from(u16::from(r))
}

// The block that a refusal names, or 0.
fn block_of(r: Refusal) -> usize
    ensures { result ≡ get_or (named r) 0 0 }
{
    match r {
        Refusal::Block(b) => b,
        _ => 0,
    }
}

// The refusal's number, and the block of an image in memory.
pub(crate) fn of_refused_image(r: Refusal) -> u64
    requires { block_named (refused_by r) < 36028797018963968 }
    ensures { result ≡ reply_number (refused_by r) }
{
    of_refusal(r) + 256 * block_of(r) as u64
}

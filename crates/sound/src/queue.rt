// Who stands in a queue.
ghost use Rattle.std.specs.Prelude.{◌≡◌, ◌≤◌, length, take, ltb};
ghost use Rattle.std.specs.List.{list_all};
ghost use Rattle.sound.specs.Test.{queue_in};

use machine::{Machine, Queue};

// The first len.
pub(crate) fn standing(q: &Queue) -> &[u8]
    requires { q.now.len ≤ 10 }
    ensures { (result.now ≡ take q.now.len q.now.at) × (length result.now ≡ q.now.len) }
{
    &q.at[..usize::from(q.len)]
}

pub(crate) fn are_below(seats: &[u8], n: u8) -> bool
    ensures { result ≡ list_all (λ x. ltb x n) seats.now }
{
    seats.iter().all(|&x| x < n)
}

// Who stands in a queue is a created process.
#[tactic(auto, using(crate::proofs::Parts::queue_row, crate::proofs::Parts::queue_long))]
pub(crate) fn is_ok(q: &Queue, created: u8) -> bool
    ensures { result ≡ queue_in created q.now }
{
    q.len <= Machine::PROCESSES && are_below(standing(q), created)
}

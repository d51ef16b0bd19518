// Who runs and who is ready, for a move that changes more than one part of the machine. The machine's own `run_nobody` and `wake` are
// their twins, and not public.
ghost use Rattle.std.specs.Prelude.{◌≡◌};
ghost use Rattle.machine.specs.Classes.{set_running, wake};

use machine::Machine;

// h runs, or nobody does; no mark outlives who ran.
#[tactic(auto, unfolding(machine::specs::Classes::set_running))]
pub(crate) fn set_running(m: &mut Machine, h: u8)
    ensures { m.new ≡ set_running m.old h }
{
    m.running = h;
    m.mark = false;
}

// Woken processes join the tail of their class.
#[tactic(auto, unfolding(machine::specs::Classes::wake, machine::specs::Classes::push))]
pub(crate) fn wake(m: &mut Machine, h: u8)
    ensures { m.new ≡ wake m.old h }
{
    m.ready = machine::joined(m.ready, machine::class_of(&m.processes, h), h);
}

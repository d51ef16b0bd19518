// What a kernel call decides before the machine changes: its caller's record, and what else is to be done.
use machine::Process;

// Nothing, where the caller or a store is not fit to begin; a stop with its number and line (`perform` is public, and makes one with any
// number); nothing more than the caller's record; or a move of the machine.
#[derive(Clone, Copy)]
pub enum Act {
    Unfit,
    Stop(u8, u16),
    Go,
    WaitClock,
    WaitBell,
    Create(u16, u16),
    Finish,
    StopJob(u16, u16),
    Enter(u8),
    Leave(u8),
    Delay(u8, u8),
    Continue(u8, u8),
    MakeGate,
    Start(u8, u8, u16),
}

#[derive(Clone, Copy)]
pub struct Decision {
    pub process: Process,
    pub act: Act,
}

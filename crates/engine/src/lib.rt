// The virtual code's engine: instructions and jobs on the running process's registers, the code, the common store
// and the process's own part of the private store. Document 01, "Instructions" and "Jobs and stops".
#![tactic(auto)]

mod burst;
mod flow;
mod frame;
mod job;
mod perform;
mod place;
mod sight;
mod stack;

pub use burst::{Burst, End, run_burst};

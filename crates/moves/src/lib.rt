// The machine's other moves, which calls 3 to 5 and 11 and the done event need, and what fault 8 asks. Each move is given the
// machine by value and hands the new one back.
#![tactic(auto)]

mod asked;
mod devices;
mod processes;
mod ready;

pub use asked::{may_continue, may_delay, may_enter, may_leave};
pub use devices::{device_end, device_start};
pub use processes::{create_process, finish, stop_answer, stop_job};

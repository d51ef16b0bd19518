// The kernel calls of document 01, numbers 0 to 11, by the running process, and the done event, on the machine and its two lent stores.
#![tactic(auto)]

mod answer;
mod call;
mod caller;
mod create;
mod done;
mod fit;
mod io;
mod on_gate;
mod small;

pub use answer::{Act, Decision};
pub use call::{decide, perform};
pub use caller::Caller;
pub use done::device_done;
pub use io::record;

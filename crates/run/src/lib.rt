// The machine: load, step, run, tick, done and bell, each taken or refused by document 01's table.
#![tactic(auto)]

mod answer;
mod checks;
mod doors;
mod loading;
mod turn;

pub use answer::{Ended, Offered};
pub use checks::check_stores;
pub use doors::{bell, done, run, step, tick};
pub use loading::{Loaded, check_load, load, set_up};

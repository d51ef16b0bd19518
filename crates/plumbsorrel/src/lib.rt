// The machine for C: numbers and slices only. Each function answers one number, defined in specs/.
#![tactic(auto)]

mod events;
mod images;
mod number;
mod records;
mod runs;
mod state;

pub use events::{plumbsorrel_bell, plumbsorrel_done, plumbsorrel_tick};
pub use images::{plumbsorrel_load, plumbsorrel_write};
pub use records::plumbsorrel_record;
pub use runs::{plumbsorrel_run, plumbsorrel_step};
pub use state::plumbsorrel_is_sound;

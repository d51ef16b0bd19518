// Images: blocks, the header, reading and writing. Document 01, "Image".
#![tactic(auto)]

mod block;
mod head;
mod reader;
mod table;
mod writer;

pub use head::Header;
pub use reader::{check_room, copy_code, examine, read};
pub use table::Refusal;
pub use writer::write;

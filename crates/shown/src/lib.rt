// What the programs that read images have in common: an image's file, and lines of words and numbers for a person.
#![tactic(auto)]

mod file;
mod line;
mod words;

pub use file::read_image;
pub use line::Line;
pub use words::say_refusal;

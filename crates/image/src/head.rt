// The header of an image, and what it says of the image's size.
ghost use Rattle.std.specs.Prelude.{◌≡◌, ◌≤◌, length};
ghost use Rattle.image.specs.Header.{good_header, header_of, code_blocks};

use crate::block::{self, word};

const CONTENT: u16 = block::CONTENT as u16;

#[derive(Clone, Copy)]
pub struct Header {
    pub edition: u16,
    pub length: u16,
    pub devices: u16,
    pub variables: u16,
}

impl Header {
    pub const EDITION: u16 = 1;

    pub const MOST_LENGTH: u16 = 16256;

    pub const ALL_DEVICES: u16 = 31;

    pub const MOST_VARIABLES: u16 = 1024;

    // Each field in its range.
    pub(crate) fn is_good(self) -> bool
        ensures { result ≡ good_header self }
    {
        self.edition == Header::EDITION
            && 1 <= self.length
            && self.length <= Header::MOST_LENGTH
            && self.devices <= Header::ALL_DEVICES
            && self.variables <= Header::MOST_VARIABLES
    }

    // The header that stands in block 0.
    pub(crate) fn of(image: &[u8]) -> Header
        requires { 512 ≤ length image.now }
        ensures { result ≡ header_of image.now }
    {
        Header {
            edition: word(image, 1),
            length: word(image, 2),
            devices: word(image, 3),
            variables: word(image, 4),
        }
    }
}

// n / 254 rounded up: the blocks that n words of code fill.
pub(crate) fn code_blocks(n: u16) -> u16
    ensures { result ≡ code_blocks n }
{
    n.div_ceil(CONTENT)
}

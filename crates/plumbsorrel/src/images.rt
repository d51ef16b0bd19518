// Loading and writing images.
ghost use Rattle.std.specs.Prelude.{◌≡◌, not, length};
ghost use Rattle.image.specs.Refusal.{taken, ◌then◌};
ghost use Rattle.image.specs.Header.{fields, header_of};
ghost use Rattle.image.specs.Read.{refuse, refusal10, checks, read_says};
ghost use Rattle.machine.specs.Offer.{stores_fit};
ghost use Rattle.layout.specs.Layout.{state_words};
ghost use Rattle.plumbsorrel.specs.Image.{header, load_leaves, c_load, write_leaves, c_write};

use crate::number;
use image::{Header, Refusal};

// 1 to 6 and 10, for the code and for the state, in the table's order.
fn check_load(
    image: &[u8],
    code: &[u16],
    common: &[u16],
    private: &[u16],
    state: &[u16],
) -> Result<Header, Refusal>
    ensures { read_says result ≡ ((checks image.now (refuse 6 (not (stores_fit common.now private.now))) (length code.now) then refusal10 (length state.now) state_words) then taken (fields (header_of image.now))) }
{
    let header = run::check_load(image, code.len(), common.len(), private.len())?;
    image::check_room(state.len(), layout::WORDS)?;
    Ok(header)
}

// The fresh machine's words first in the state, its code and its cleared stores; 256 times n.
#[unsafe(no_mangle)]
pub extern "C" fn plumbsorrel_load(
    image: &[u8],
    code: &mut [u16],
    common: &mut [u16],
    private: &mut [u16],
    state: &mut [u16],
) -> u64
    ensures { load_leaves result code.new common.new private.new state.new
        ≡ c_load image.now code.old common.old private.old state.old }
{
    match check_load(image, code, common, private, state) {
        Ok(header) => {
            let m = run::set_up(image, header, code, common, private);
            layout::pack(m, &mut state[..layout::WORDS]);
            256 * u64::from(header.length)
        }
        Err(r) => number::of_refused_image(r),
    }
}

// The image of a header and code; 256 times its bytes.
#[unsafe(no_mangle)]
pub extern "C" fn plumbsorrel_write(
    edition: u16,
    n: u16,
    devices: u16,
    variables: u16,
    code: &[u16],
    out: &mut [u8],
) -> u64
    ensures { write_leaves result out.new ≡ c_write (header edition n devices variables) code.now out.old }
{
    let h = Header {
        edition,
        length: n,
        devices,
        variables,
    };
    match image::write(h, code, out) {
        Ok(bytes) => 256 * bytes as u64,
        Err(r) => number::of_refused_image(r),
    }
}

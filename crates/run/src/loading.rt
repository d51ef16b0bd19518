// Loading: an image becomes the fresh machine, with its code in the buffer and both stores cleared; or it is refused.
ghost use Rattle.std.specs.Prelude.{◌≡◌, not};
ghost use Rattle.image.specs.Refusal.{taken, ◌then◌};
ghost use Rattle.image.specs.Header.{fields, header_of};
ghost use Rattle.image.specs.Read.{refuse, checks, read_says};
ghost use Rattle.run.specs.Loaded.{set_up, after_set_up, load_gives, load_outcome};
ghost use Rattle.machine.specs.Offer.{lengths_fit};

use crate::checks::check_stores;
use image::{Header, Refusal};
use machine::Machine;

// The fresh machine of an accepted image, and the image's header.
#[derive(Clone, Copy)]
pub struct Loaded {
    pub machine: Machine,
    pub header: Header,
}

// 1 to 6 and 10, in the table's order: the first refusal returns at once.
#[tactic(auto, using(crate::proofs::Loads::loading))]
pub fn check_load(
    image: &[u8],
    code: usize,
    common: usize,
    private: usize,
) -> Result<Header, Refusal>
    ensures { read_says result ≡ (checks image.now (refuse 6 (not (lengths_fit common private))) code then taken (fields (header_of image.now))) }
{
    let header = image::examine(image)?;
    check_stores(common, private)?;
    image::check_room(code, usize::from(header.length))?;
    Ok(header)
}

// The fresh machine of a header, with the image's code in the buffer, where it fits, and both stores cleared.
pub fn set_up(
    image: &[u8],
    header: Header,
    code: &mut [u16],
    common: &mut [u16],
    private: &mut [u16],
) -> Machine
    ensures { set_up result code.new common.new private.new ≡ after_set_up image.now header code.old common.old private.old }
{
    image::copy_code(image, header.length, code);
    common.fill(0);
    private.fill(0);
    Machine::fresh(header)
}

// Loading needs a code buffer of at least n words, and touches only the first n.
pub fn load(
    image: &[u8],
    code: &mut [u16],
    common: &mut [u16],
    private: &mut [u16],
) -> Result<Loaded, Refusal>
    ensures { load_gives result code.new common.new private.new ≡ load_outcome image.now code.old common.old private.old }
{
    let header = check_load(image, code.len(), common.len(), private.len())?;
    let machine = set_up(image, header, code, common, private);
    Ok(Loaded { machine, header })
}

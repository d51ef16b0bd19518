// Writing an image: refusals 3, 6 and 10 in the table's order, then the blocks.
ghost use Rattle.std.specs.Prelude.{◌≡◌, ◌*◌, ◌<◌, ◌≤◌, not, length, ◌==◌, slice_index};
ghost use Rattle.notation.specs.Upto.{list_to, laid};
ghost use Rattle.image.specs.Header.{fields, good_header, code_blocks};
ghost use Rattle.image.specs.Refusal.{check_says};
ghost use Rattle.image.specs.Read.{refuse};
ghost use Rattle.image.specs.Write.{content, body, block_byte, image_byte, write_checks, writing, write_says, bytes_after};

use crate::head::Header;
use crate::reader::check_room;
use crate::table::Refusal;
use crate::{block, head};

// 3: header field out of range.
fn check_header(h: Header) -> Result<(), Refusal>
    ensures { check_says result ≡ refuse 3 (not (good_header h)) }
{
    if h.is_good() {
        Ok(())
    } else {
        Err(Refusal::Head)
    }
}

// 6: the code is not n words.
#[tactic(auto, using(crate::proofs::Laws::cases))]
fn check_code(words: usize, n: usize) -> Result<(), Refusal>
    ensures { check_says result ≡ refuse 6 (not (words == n)) }
{
    if words == n {
        Ok(())
    } else {
        Err(Refusal::Lent)
    }
}

// All checks, in the table's order: the first refusal returns at once.
#[tactic(auto, using(crate::proofs::Laws::chain), unfolding(crate::specs::Write::write_checks))]
fn check_all(h: Header, words: usize, room: usize) -> Result<(), Refusal>
    ensures { check_says result ≡ write_checks h words room }
{
    check_header(h)?;
    check_code(words, usize::from(h.length))?;
    check_room(
        room,
        block::BYTES * (1 + usize::from(head::code_blocks(h.length))),
    )
}

// The header's field j, or zero after them.
fn field(h: Header, j: usize) -> u16
    ensures { result ≡ slice_index (fields h) j }
{
    let fields = [h.edition, h.length, h.devices, h.variables];
    fields.get(j).copied().unwrap_or(0)
}

// Content word j of block i. Here and in the next three functions header and code stay two parameters: the definitions take the two so.
#[tactic(auto, using(crate::proofs::Laws::cases))]
fn content_word(h: Header, code: &[u16], i: u16, j: usize) -> u16
    requires { j < 254 }
    ensures { result ≡ content h code.now i j }
{
    if i == 0 {
        return field(h, j);
    }
    let k = block::CONTENT * usize::from(i - 1) + j;
    code.get(k).copied().unwrap_or(0)
}

// Word j of block i, before its check word.
#[tactic(auto, using(crate::proofs::Laws::cases), unfolding(crate::specs::Write::body))]
fn body_word(h: Header, code: &[u16], i: u16, j: usize) -> u16
    requires { j < 255 }
    ensures { result ≡ body h code.now i j }
{
    if j == 0 {
        i
    } else {
        content_word(h, code, i, j - 1)
    }
}

// Block i: its number, its content and its check word. Over numbers: word j is two bytes, and a proof knows nothing of what parts
// lent by `chunks_exact_mut` hold afterwards.
fn write_block(h: Header, code: &[u16], i: u16, block: &mut [u8])
    requires { length block.old ≡ 512 }
    ensures { block.new ≡ list_to (block_byte h code.now i) 512 }
{
    let mut sum: u16 = 0;
    for j in 0..block::CHECK {
        let w = body_word(h, code, i, j);
        block::put_word(block, j, w);
        sum = sum.wrapping_add(w);
    }
    block::put_word(block, block::CHECK, block::SUM.wrapping_sub(sum));
}

// The blocks of the image, by their numbers: for chunks lent in a row the same holds.
#[tactic(auto, using(notation::proofs::Upto::laid_none, crate::proofs::Laws::block_more))]
fn write_blocks(h: Header, code: &[u16], blocks: u16, out: &mut [u8])
    requires { 512 * blocks ≤ length out.old }
    ensures { out.new ≡ laid (image_byte h code.now) (512 * blocks) out.old }
{
    for i in 0..blocks {
        let at = block::BYTES * usize::from(i);
        write_block(h, code, i, &mut out[at..at + block::BYTES]);
    }
}

// The number of bytes written; or the refusal, with the output as it was.
#[tactic(auto, using(crate::proofs::Laws::image_fits))]
pub fn write(header: Header, code: &[u16], out: &mut [u8]) -> Result<usize, Refusal>
    ensures { (write_says result ≡ writing header (length code.now) (length out.old)) × (out.new ≡ bytes_after header code.now out.old) }
{
    check_all(header, code.len(), out.len())?;
    let blocks = 1 + head::code_blocks(header.length);
    write_blocks(header, code, blocks, out);
    Ok(block::BYTES * usize::from(blocks))
}

// Reading an image: refusals 1 to 5 and 10 in the table's order, then the code.
ghost use Rattle.std.specs.Prelude.{◌≡◌, ℕ, ◌+◌, ◌*◌, ◌<◌, ◌≤◌, [], length, MatchResult};
ghost use Rattle.notation.specs.Upto.{list_to, laid};
ghost use Rattle.image.specs.Block.{word_at};
ghost use Rattle.image.specs.Header.{header_of, code_blocks};
ghost use Rattle.image.specs.Refusal.{taken, refused_by, check_says};
ghost use Rattle.image.specs.Read.{refusal1, refusal2, refusal3, refusal4, refusal5, refusal10, examined, code_at, copied, reading, read_says, code_after};

use crate::head::Header;
use crate::table::Refusal;
use crate::{block, head};

// The zeros after the header's four fields begin at this word of block 0.
const REST_AT: usize = 5;

// 1: image length 0 or not a multiple of 512.
#[tactic(auto, using(crate::proofs::Laws::cases), unfolding(crate::specs::Read::refusal1))]
fn check_length(len: usize) -> Result<(), Refusal>
    ensures { check_says result ≡ refusal1 len }
{
    if len == 0 || len % block::BYTES != 0 {
        Err(Refusal::Length)
    } else {
        Ok(())
    }
}

// 2: a block's check, then its number, is wrong; the first such block is named.
fn check_blocks(image: &[u8]) -> Result<(), Refusal>
    ensures { check_says result ≡ refusal2 image.now }
{
    let (blocks, _) = image.as_chunks::<{ block::BYTES }>();
    for (i, block) in blocks.iter().enumerate() {
        if !block::is_good(block, i) {
            return Err(Refusal::Block(i));
        }
    }
    Ok(())
}

// 3: header field out of range, or a nonzero word after it; else the header.
#[tactic(auto, using(crate::proofs::Laws::rest_is), unfolding(crate::specs::Read::refusal3))]
fn check_header(image: &[u8]) -> Result<Header, Refusal>
    requires { 512 ≤ length image.now }
    ensures { MatchResult result (λ h. (h ≡ header_of image.now) × (taken [] ≡ refusal3 image.now)) (λ r. refused_by r ≡ refusal3 image.now) }
{
    let header = Header::of(image);
    if header.is_good() && block::are_zero(&image[2 * REST_AT..2 * block::CHECK]) {
        Ok(header)
    } else {
        Err(Refusal::Head)
    }
}

// 4: block count is not 1 plus n / 254 rounded up.
#[tactic(auto, using(crate::proofs::Laws::cases), unfolding(crate::specs::Read::refusal4))]
fn check_count(len: usize, n: u16) -> Result<(), Refusal>
    ensures { check_says result ≡ refusal4 len n }
{
    let count = 1 + usize::from(head::code_blocks(n));
    if len / block::BYTES == count {
        Ok(())
    } else {
        Err(Refusal::Count)
    }
}

// 5: nonzero fill after the code. In the last block word k of the code is word k + 2 * blocks + 255 of the image.
fn check_fill(image: &[u8], n: u16) -> Result<(), Refusal>
    requires { 512 * (1 + code_blocks n) ≤ length image.now }
    ensures { check_says result ≡ refusal5 image.now n }
{
    let blocks = usize::from(head::code_blocks(n));
    let n = usize::from(n);
    let first = n + 2 * blocks + block::CHECK;
    let end = first + (block::CONTENT * blocks - n);
    if block::are_zero(&image[2 * first..2 * end]) {
        Ok(())
    } else {
        Err(Refusal::Fill)
    }
}

// 10: output too short.
#[tactic(auto, using(crate::proofs::Laws::cases), unfolding(crate::specs::Read::refusal10))]
pub fn check_room(room: usize, size: usize) -> Result<(), Refusal>
    ensures { check_says result ≡ refusal10 room size }
{
    if room < size {
        Err(Refusal::Short)
    } else {
        Ok(())
    }
}

// The header of an image; or the first refusal of 1 to 5, in the table's order.
#[tactic(auto, using(crate::proofs::Laws::chain), unfolding(crate::specs::Read::examined))]
pub fn examine(image: &[u8]) -> Result<Header, Refusal>
    ensures { read_says result ≡ examined image.now }
{
    check_length(image.len())?;
    check_blocks(image)?;
    let header = check_header(image)?;
    check_count(image.len(), header.length)?;
    check_fill(image, header.length)?;
    Ok(header)
}

// The part becomes the words from word at on.
fn lay_words(image: &[u8], at: usize, part: &mut [u16])
    requires { (k : ℕ) → k < length part.old → 2 * (at + k) + 1 < length image.now }
    ensures { part.new ≡ list_to (λ k. word_at image.now (at + k)) (length part.old) }
{
    for (k, w) in part.iter_mut().enumerate() {
        *w = block::word(image, at + k);
    }
}

// The first n words of the buffer become the code, block by block; the rest stays. What is left over stands apart from the full
// blocks: with both in one loop the compiler made no vectors of it, and took 1.6 times the instructions for a load. By places: of what
// `chunks_exact_mut` lent a proof knows the length alone.
fn lay_code(image: &[u8], n: u16, code: &mut [u16])
    requires { (n ≤ length code.old) × (512 * (1 + code_blocks n) ≤ length image.now) }
    ensures { code.new ≡ laid (code_at image.now) n code.old }
{
    let words = usize::from(n);
    let full = words / block::CONTENT;
    for i in 0..full {
        let from = block::CONTENT * i;
        lay_words(
            image,
            block::WORDS * (1 + i) + 1,
            &mut code[from..from + block::CONTENT],
        );
    }
    lay_words(
        image,
        block::WORDS * (1 + full) + 1,
        &mut code[block::CONTENT * full..words],
    );
}

// The code of n words, where the image has it and the buffer has room; else nothing changes.
#[tactic(auto, using(crate::proofs::Laws::cases), unfolding(crate::specs::Read::copied))]
pub fn copy_code(image: &[u8], n: u16, code: &mut [u16])
    ensures { code.new ≡ copied image.now n code.old }
{
    let size = block::BYTES * (1 + usize::from(head::code_blocks(n)));
    if usize::from(n) <= code.len() && size <= image.len() {
        lay_code(image, n, code);
    }
}

// The header, with the code in the buffer; or the refusal, with the buffer as it was.
pub fn read(image: &[u8], code: &mut [u16]) -> Result<Header, Refusal>
    ensures { (read_says result ≡ reading image.now (length code.old)) × (code.new ≡ code_after image.now code.old) }
{
    let header = examine(image)?;
    check_room(code.len(), usize::from(header.length))?;
    copy_code(image, header.length, code);
    Ok(header)
}

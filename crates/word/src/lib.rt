// 16-bit words, and the virtual code's arithmetic on them: codes 4, 6 to 19 and 22 of document 01.
#![tactic(auto)]

mod whole;

ghost use Rattle.std.specs.Prelude.{◌≡◌};
ghost use Rattle.word.specs.Word.{number_of, said, unary_w, binary_w, local_addr_w, range_w, index_w, case_w};

// Document 01's faults, in the order of their numbers.
#[derive(Clone, Copy, PartialEq, Eq)]
pub enum Fault {
    Terminated,
    Overflow,
    Pointer,
    Range,
    Variant,
    HeapLimit,
    StackLimit,
    Code,
    Gate,
    Limit,
}

impl From<Fault> for u8 {
    ghost from_gives = { λ f n. n ≡ number_of f };

    fn from(f: Fault) -> u8 {
        f as u8
    }
}

impl From<Fault> for u16 {
    ghost from_gives = { λ f n. n ≡ number_of f };

    fn from(f: Fault) -> u16 {
        f as u16
    }
}

// NOT and NEG, by their codes 8 and 11. The codes stay numbers, here and in `binary`: any other is answered too, by fault 7.
#[tactic(auto, using(crate::proofs::Words::tests), unfolding(crate::specs::Word::unary_w))]
pub fn unary(code: u16, a: u16) -> Result<u16, Fault>
    ensures { said result ≡ unary_w code a }
{
    match code {
        8 => Ok(whole::not(a)),
        11 => whole::neg(a),
        _ => Err(Fault::Code),
    }
}

// AND, OR, and ADD to GREATER, by their codes 9, 10 and 12 to 19; b is the word pushed later.
#[tactic(auto, using(crate::proofs::Words::tests), unfolding(crate::specs::Word::binary_w))]
pub fn binary(code: u16, a: u16, b: u16) -> Result<u16, Fault>
    ensures { said result ≡ binary_w code a b }
{
    match code {
        9 => Ok(a & b),
        10 => Ok(a | b),
        12 => whole::add(a, b),
        13 => whole::sub(a, b),
        14 => whole::mul(a, b),
        15 => whole::div(a, b),
        16 => whole::modulo(a, b),
        17 => Ok(whole::less(a, b)),
        18 => Ok(whole::equal(a, b)),
        19 => Ok(whole::less(b, a)),
        _ => Err(Fault::Code),
    }
}

// LOCALADDR: the frame's mark b, an unsigned address, and the signed distance d.
#[tactic(auto, using(crate::proofs::Words::values))]
pub fn local_addr(b: u16, d: u16) -> Result<u16, Fault>
    ensures { said result ≡ local_addr_w b d }
{
    whole::fitted(i32::from(b) + whole::value(d))
}

// RANGE: i itself, or fault 3 outside min to max.
#[tactic(auto, using(crate::proofs::Words::ranges))]
pub fn range(i: u16, min: u16, max: u16) -> Result<u16, Fault>
    ensures { said result ≡ range_w i min max }
{
    let x = whole::value(i);
    if x < whole::value(min) || whole::value(max) < x {
        return Err(Fault::Range);
    }
    Ok(i)
}

// INDEX: the address moved by i - min steps of len words, or fault 3 or 2.
#[tactic(auto, using(crate::proofs::Words::indexes))]
pub fn index(address: u16, i: u16, min: u16, max: u16, len: u16) -> Result<u16, Fault>
    ensures { said result ≡ index_w address i min max len }
{
    range(i, min, max)?;
    match u16::try_from(whole::moved(address, i, min, len)) {
        Ok(at) if at < 4096 => Ok(at),
        _ => Err(Fault::Pointer),
    }
}

// CASEJUMP: the place of i, from 0, among the m words from min on, or fault 3.
#[tactic(auto, using(crate::proofs::Words::cases))]
pub fn case_place(i: u16, min: u16, m: u16) -> Result<u16, Fault>
    ensures { said result ≡ case_w i min m }
{
    match u16::try_from(whole::value(i) - whole::value(min)) {
        Ok(place) if place < m => Ok(place),
        _ => Err(Fault::Range),
    }
}

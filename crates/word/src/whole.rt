// Signed words: the code of each operation on one or two of them.
ghost use Rattle.std.specs.Prelude.{◌≡◌, FitsSigned};
ghost use Rattle.std.specs.Int.{w16};
ghost use Rattle.word.specs.Word.{signed, said, indexed, fitted, not_w, add_w, sub_w, neg_w, mul_w, div_w, mod_w, less_w, equal_w};

use crate::Fault;

// The whole number that a word stands for.
#[tactic(auto, using(crate::proofs::Words::value_is))]
pub(crate) fn value(a: u16) -> i32
    ensures { (result ≡ signed a) × FitsSigned w16 result }
{
    i32::from(a.cast_signed())
}

// The word of a whole number, or fault 1 where that doesn't fit.
#[tactic(auto, using(crate::proofs::Words::fits))]
pub(crate) fn fitted(z: i32) -> Result<u16, Fault>
    ensures { said result ≡ fitted z }
{
    match i16::try_from(z) {
        Ok(w) => Ok(w.cast_unsigned()),
        Err(_) => Err(Fault::Overflow),
    }
}

#[tactic(auto, using(crate::proofs::Words::tests))]
pub(crate) fn not(a: u16) -> u16
    ensures { result ≡ not_w a }
{
    u16::from(a == 0)
}

#[tactic(auto, using(crate::proofs::Words::values))]
pub(crate) fn neg(a: u16) -> Result<u16, Fault>
    ensures { said result ≡ neg_w a }
{
    fitted(-value(a))
}

// A line each: one function that is given the operator would be no shorter.
#[tactic(auto, using(crate::proofs::Words::values))]
pub(crate) fn add(a: u16, b: u16) -> Result<u16, Fault>
    ensures { said result ≡ add_w a b }
{
    fitted(value(a) + value(b))
}

#[tactic(auto, using(crate::proofs::Words::values))]
pub(crate) fn sub(a: u16, b: u16) -> Result<u16, Fault>
    ensures { said result ≡ sub_w a b }
{
    fitted(value(a) - value(b))
}

#[tactic(auto, using(crate::proofs::Words::values))]
pub(crate) fn mul(a: u16, b: u16) -> Result<u16, Fault>
    ensures { said result ≡ mul_w a b }
{
    fitted(value(a) * value(b))
}

#[tactic(auto, using(crate::proofs::Words::quotients))]
pub(crate) fn div(a: u16, b: u16) -> Result<u16, Fault>
    ensures { said result ≡ div_w a b }
{
    fitted(value(a).checked_div(value(b)).ok_or(Fault::Overflow)?)
}

#[tactic(auto, using(crate::proofs::Words::quotients))]
pub(crate) fn modulo(a: u16, b: u16) -> Result<u16, Fault>
    ensures { said result ≡ mod_w a b }
{
    fitted(value(a).checked_rem(value(b)).ok_or(Fault::Overflow)?)
}

#[tactic(auto, using(crate::proofs::Words::values))]
pub(crate) fn less(a: u16, b: u16) -> u16
    ensures { result ≡ less_w a b }
{
    u16::from(value(a) < value(b))
}

#[tactic(auto, using(crate::proofs::Words::is_equal))]
pub(crate) fn equal(a: u16, b: u16) -> u16
    ensures { result ≡ equal_w a b }
{
    u16::from(a == b)
}

// The address moved by i - min steps of len words, as a whole number; 64 bits hold any such product.
pub(crate) fn moved(address: u16, i: u16, min: u16, len: u16) -> i64
    ensures { result ≡ indexed address i min len }
{
    let steps = value(i) - value(min);
    i64::from(value(address)) + i64::from(steps) * i64::from(len)
}

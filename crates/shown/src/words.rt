// A refusal in words.
ghost use Rattle.std.specs.Prelude.{◌≡◌};
ghost use Rattle.shown.specs.Line.{put_all};
ghost use Rattle.shown.specs.Refused.{block_words, reason, refusal_line};

use crate::line::Line;
use image::Refusal;
use std::io;

// The table's number and words.
pub fn say_refusal(rt: &impl Print, r: Refusal) -> io::Result<()> {
    refusal_line(r).say(rt)
}

#[tactic(auto, using(crate::proofs::Laws::put_both), unfolding(crate::specs::Line::bytes))]
fn refusal_line(r: Refusal) -> Line
    ensures { result ≡ refusal_line r }
{
    reason(Line::new().put(b"refused, "), r)
}

#[tactic(auto, unfolding(crate::specs::Line::bytes, crate::specs::Refused::reason))]
fn reason(line: Line, r: Refusal) -> Line
    ensures { result ≡ put_all line (reason r) }
{
    match r {
        Refusal::Length => line.put(b"1: its length is 0 or not a multiple of 512 bytes"),
        Refusal::Block(b) => block_line(line, b),
        Refusal::Head => line.put(
            b"3: a header field is out of range, or a word after the header is not zero",
        ),
        Refusal::Count => line.put(b"4: it has not as many blocks as its code length asks"),
        Refusal::Fill => line.put(b"5: a word after the code is not zero"),
        Refusal::Lent => line.put(b"6: a store or the code has the wrong length"),
        Refusal::Unsound => line.put(b"7: the state is not sound"),
        Refusal::Stopped => line.put(b"8: the machine is stopped"),
        Refusal::Done => line.put(b"9: a bad done event"),
        Refusal::Short => line.put(b"10: the output is too short"),
    }
}

#[tactic(auto, using(crate::proofs::Laws::put_three), unfolding(crate::specs::Line::bytes))]
fn block_line(line: Line, b: usize) -> Line
    ensures { result ≡ put_all line (block_words b) }
{
    line.put(b"2: the check or the number of block ")
        .number(b as u64)
        .put(b" is wrong")
}

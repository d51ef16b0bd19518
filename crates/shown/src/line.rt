// A line to be shown: what is put into it stands in columns that its maker chooses.
ghost use Rattle.std.specs.Prelude.{◌≡◌};
ghost use Rattle.shown.specs.Line.{bytes, empty, pushed, put_all, to_column, decimal, right_to, signed_word, device_name};

use std::io;

// The first len bytes of text; those after are spaces, so that a column is reached by a longer line. Memory is fixed, and specs/Line
// speaks of both fields.
#[derive(Clone, Copy)]
pub struct Line {
    len: usize,
    text: [u8; 120],
}

impl Line {
    pub fn new() -> Line
        ensures { result ≡ empty }
    {
        Line {
            len: 0,
            text: [b' '; 120],
        }
    }

    // A full line stays as it is.
    #[tactic(auto, using(crate::proofs::Laws::cases), unfolding(crate::specs::Line::pushed))]
    fn push(mut self, b: u8) -> Line
        ensures { result ≡ pushed self b }
    {
        if self.len < 120 {
            self.text[self.len] = b;
            self.len += 1;
        }
        self
    }

    #[tactic(auto, using(crate::proofs::Laws::put_more), unfolding(crate::specs::Line::put_all))]
    pub fn put(mut self, words: &[u8]) -> Line
        ensures { result ≡ put_all self words.now }
    {
        for b in words {
            self = self.push(*b);
        }
        self
    }

    // What follows begins at a column, where that is not passed yet.
    #[tactic(auto, using(crate::proofs::Laws::cases), unfolding(crate::specs::Line::to_column))]
    pub fn to(mut self, column: usize) -> Line
        ensures { result ≡ to_column self column }
    {
        if self.len < column && column <= 120 {
            self.len = column;
        }
        self
    }

    #[tactic(auto, using(crate::proofs::Laws::digits))]
    pub fn number(self, n: u64) -> Line
        ensures { result ≡ put_all self (decimal n) }
    {
        self.put(itoa::Buffer::new().format(n).as_bytes())
    }

    // A number that ends at a column.
    #[tactic(auto, using(crate::proofs::Laws::digits))]
    pub fn right(self, n: u64, column: usize) -> Line
        ensures { result ≡ right_to self n column }
    {
        let mut buffer = itoa::Buffer::new();
        let digits = buffer.format(n);
        self.to(column.saturating_sub(digits.len()))
            .put(digits.as_bytes())
    }

    // A word, signed.
    #[tactic(auto, using(crate::proofs::Laws::cases), unfolding(crate::specs::Line::signed_word, crate::specs::Line::bytes))]
    pub fn word(self, x: u16) -> Line
        ensures { result ≡ signed_word self x }
    {
        let n = u64::from(x);
        if n < 32768 {
            self.number(n)
        } else {
            self.put(b"-").number(65536 - n)
        }
    }

    // A device's name. The machine knows a device by its number, and so does specs/Line; a table of names did not prove.
    pub fn device(self, d: u8) -> Line
        ensures { result ≡ put_all self (bytes (device_name d)) }
    {
        match d {
            0 => self.put(b"terminal"),
            1 => self.put(b"disk"),
            2 => self.put(b"tape"),
            3 => self.put(b"printer"),
            _ => self.put(b"card reader"),
        }
    }

    // Writes the line and its end.
    pub fn say(self, rt: &impl Print) -> io::Result<()> {
        if let Some(text) = self.text.get(..self.len) {
            rt.write_all(text)?;
        }
        println!(rt)
    }
}

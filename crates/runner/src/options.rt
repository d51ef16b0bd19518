// The words of a command line: options, their numbers, and the names of images.

// How the images that follow are run; `serve` is an option of its own.
#[derive(Clone, Copy)]
pub(crate) struct Options {
    pub(crate) budget: u32,
    pub(crate) tick: u32,
    pub(crate) serve: bool,
}

impl Default for Options {
    fn default() -> Options {
        Options {
            budget: 1000000,
            tick: 100,
            serve: false,
        }
    }
}

// What the next word is to be, or that the last one was wrong.
#[derive(Clone, Copy, PartialEq, Eq)]
pub(crate) enum Next {
    Any,
    Budget,
    Tick,
    Wrong,
}

#[derive(Clone, Copy, PartialEq, Eq)]
pub(crate) enum Word {
    Budget,
    Tick,
    Serve,
    Help,
    Unknown,
    Image,
}

pub(crate) fn word_of(word: &[u8]) -> Word {
    match word {
        b"--budget" => Word::Budget,
        b"--tick" => Word::Tick,
        b"--serve" => Word::Serve,
        b"--help" => Word::Help,
        [b'-', ..] => Word::Unknown,
        _ => Word::Image,
    }
}

// One more decimal digit; nine at most.
fn with_digit(n: u32, digit: &u8) -> Option<u32> {
    if digit.is_ascii_digit() && n <= 99999999 {
        Some(10 * n + u32::from(digit - b'0'))
    } else {
        None
    }
}

pub(crate) fn number_of(word: &[u8]) -> Option<u32> {
    if word.is_empty() {
        return None;
    }
    word.iter().try_fold(0, with_digit)
}

// Runs each image that it is given, up to a budget of instructions, and shows how it ended and what is where.
#![tactic(auto)]

mod course;
mod options;
mod place;
mod report;

use course::Bench;
use machine::Machine;
use options::{Next, Options, Word, number_of, word_of};
use run::Loaded;
use std::env::FillError;
use std::io;
use std::rt::{Env, Files};

fn say_usage(rt: &impl Print) -> io::Result<()> {
    println!(rt;
        "usage: ./plumbsorrel run [--budget N] [--tick N] [--serve] IMAGE..   (--help says more)"
    )
}

// The numbers are those of `Options::default`, `options::with_digit` and `course::IDLE`.
fn say_help(rt: &impl Print) -> io::Result<()> {
    println!(rt; "usage: ./plumbsorrel run [--budget N] [--tick N] [--serve] IMAGE..")?;
    println!(rt;
        "Runs each image, and shows how it ended and what is where. An option holds for the images after it."
    )?;
    println!(rt; "  --budget N  at most N instructions; 1000000 where it is not given")?;
    println!(rt;
        "  --tick N    a tick of the clock after every N instructions; 100 where it is not given"
    )?;
    println!(rt;
        "  --serve     a device that starts is done at once, with status 0 and argument 0; else the run ends there"
    )?;
    println!(rt;
        "While nobody runs and somebody waits for the clock, it ticks on, 100000 ticks at most for each image."
    )?;
    println!(rt; "N has at most nine digits, and for --tick it is not 0.")
}

// Loads the image and runs it; the code that the machine is lent is the first n words of its buffer.
fn run_image(rt: &impl Print, path: &[u8], bytes: &[u8], o: Options) -> io::Result<()> {
    let mut code = [0; Machine::MOST_CODE];
    let mut common = [0; Machine::COMMON];
    let mut private = [0; Machine::PRIVATE];
    match run::load(bytes, &mut code, &mut common, &mut private) {
        Ok(Loaded { machine, header }) => {
            if let Some(code) = code.get(..usize::from(header.length)) {
                let mut bench = Bench {
                    path,
                    machine,
                    code,
                    common,
                    private,
                };
                let (end, count) = bench.follow(rt, o)?;
                bench.show(rt, end, count)?;
            }
            Ok(())
        }
        Err(refusal) => {
            rt.write_all(path)?;
            print!(rt; ": ")?;
            shown::say_refusal(rt, refusal)
        }
    }
}

fn run_file<R: Files + Print + Eprint>(rt: &R, path: &[u8], o: Options) -> io::Result<()> {
    let mut bytes = [0; 65536];
    match shown::read_image(rt, path, &mut bytes)? {
        Some(length) => run_image(rt, path, &bytes[..length], o),
        None => Ok(()),
    }
}

// The options so far, what the next word is to be, and, whatever that is, whether something was done.
#[derive(Clone, Copy)]
struct Command {
    options: Options,
    next: Next,
    did: bool,
}

impl Command {
    fn refuse(&mut self, rt: &impl Print, word: &[u8]) -> io::Result<()> {
        print!(rt; "not understood: ")?;
        rt.write_all(word)?;
        println!(rt)?;
        self.next = Next::Wrong;
        Ok(())
    }

    // A word that is no option's number.
    fn take_word<R: Files + Print + Eprint>(&mut self, rt: &R, word: &[u8]) -> io::Result<()> {
        match word_of(word) {
            Word::Budget => self.next = Next::Budget,
            Word::Tick => self.next = Next::Tick,
            Word::Serve => self.options.serve = true,
            Word::Help => {
                say_help(rt)?;
                self.did = true;
            }
            Word::Unknown => self.refuse(rt, word)?,
            Word::Image => {
                run_file(rt, word, self.options)?;
                self.did = true;
            }
        }
        Ok(())
    }

    fn take<R: Files + Print + Eprint>(&mut self, rt: &R, word: &[u8]) -> io::Result<()> {
        match (self.next, number_of(word)) {
            (Next::Any, _) => self.take_word(rt, word)?,
            (Next::Budget, Some(n)) => {
                self.options.budget = n;
                self.next = Next::Any;
            }
            // a tick after every 0 instructions would be no clock
            (Next::Tick, Some(n @ 1..)) => {
                self.options.tick = n;
                self.next = Next::Any;
            }
            (Next::Budget | Next::Tick, _) => self.refuse(rt, word)?,
            (Next::Wrong, _) => {}
        }
        Ok(())
    }

    // No word was wrong, no number is missing, and something was done.
    fn is_understood(&self) -> bool {
        self.next == Next::Any && self.did
    }
}

fn main(rt: HostRuntime) -> io::Result<()> {
    let mut command = Command {
        options: Options::default(),
        next: Next::Any,
        did: false,
    };
    let mut word = [0; 4096];
    // an argument is asked for by its number: `env::args` copies all to the heap and fails at one that is not UTF-8, before an image is run
    for i in 1..usize::MAX {
        match rt.arg(i, &mut word) {
            Ok(n) => command.take(&rt, &word[..n])?,
            Err(FillError::TooLong) => command.refuse(&rt, b"an argument of over 4096 bytes")?,
            Err(FillError::NotPresent) => {
                if i == 1 {
                    return say_help(&rt);
                }
                break;
            }
        }
    }
    if !command.is_understood() {
        say_usage(&rt)?;
    }
    Ok(())
}

// What is shown of a run: how it ended, the processes, the gates made, and what stands in the common store.
use crate::course::{Bench, End, IDLE};
use crate::place::place_of;
use machine::{Gate, Machine, Process};
use shown::Line;
use std::io;

// Document 01's faults, in the order of their numbers.
const FAULTS: [&str; 10] = [
    "terminated",
    "overflow or zero divisor",
    "pointer: address not allowed",
    "range",
    "variant",
    "heap limit",
    "stack limit",
    "code",
    "gate",
    "process or gate limit",
];

// The first n of the numbers or the processes.
fn first<T>(n: u8, all: &[T]) -> &[T] {
    all.get(..usize::from(n)).unwrap_or(all)
}

// The numbers, or a dash.
fn put_list(mut line: Line, numbers: &[u8]) -> Line {
    let [one, more @ ..] = numbers else {
        return line.put(b"-");
    };
    line = line.number(u64::from(*one));
    for n in more {
        line = line.put(b" ").number(u64::from(*n));
    }
    line
}

// Each filled cell, with the process in it, or a dash.
fn put_cells(mut line: Line, cells: &[u8]) -> Line {
    let mut between: &[u8] = b"";
    for (c, q) in (0..).zip(cells) {
        if *q < Machine::NOBODY {
            line = line.put(between).number(c).put(b":").number(u64::from(*q));
            between = b" ";
        }
    }
    if between.is_empty() {
        line.put(b"-")
    } else {
        line
    }
}

fn say_stop(rt: &impl Print, fault: u8, line: u16) -> io::Result<()> {
    let words = FAULTS.get(usize::from(fault)).unwrap_or(&"");
    println!(rt; "stopped with {fault} ({words}) at line {line}")
}

fn say_process(rt: &impl Print, m: &Machine, q: u8, p: &Process) -> io::Result<()> {
    let line = Line::new().right(u64::from(q), 9).to(11);
    let line = match place_of(m, q, p.ended) {
        Some(place) => place.put(line),
        None => line.put(b"nowhere"),
    };
    let in_job: &[u8] = if p.regs.in_job { b"yes" } else { b"no" };
    let line = line
        .right(u64::from(p.class), 45)
        .right(u64::from(p.regs.address), 54)
        .right(u64::from(p.regs.line), 60)
        .to(62)
        .put(in_job)
        .to(70);
    put_list(line, first(p.holds, &p.held)).say(rt)
}

fn say_processes(rt: &impl Print, m: &Machine) -> io::Result<()> {
    println!(rt;
        "  process  place                        class  address  line  in job  holds gates"
    )?;
    for (q, p) in (0..m.created).zip(&m.processes) {
        say_process(rt, m, q, p)?;
    }
    Ok(())
}

fn say_gate(rt: &impl Print, g: u8, gate: &Gate) -> io::Result<()> {
    let line = Line::new().right(u64::from(g), 6).to(8);
    let line = if gate.holder < Machine::NOBODY {
        line.put(b"shut").right(u64::from(gate.holder), 21)
    } else {
        line.put(b"open").to(20).put(b"-")
    };
    let queue = first(gate.queue.len, &gate.queue.at);
    put_cells(put_list(line.to(23), queue).to(42), &gate.cells).say(rt)
}

fn say_gates(rt: &impl Print, m: &Machine) -> io::Result<()> {
    if m.made == 0 {
        return println!(rt; "  no gates");
    }
    println!(rt; "  gate  state  holder  waiting            delayed, cell:process")?;
    for (g, gate) in (0..m.made).zip(&m.gates) {
        say_gate(rt, g, gate)?;
    }
    Ok(())
}

// The first 16 words that are not 0, and how many more there are.
fn say_common(rt: &impl Print, common: &[u16]) -> io::Result<()> {
    if common.iter().all(|x| *x == 0) {
        return println!(rt; "  common store: every word is 0");
    }
    println!(rt; "  common  word")?;
    let mut words = (0..).zip(common).filter(|(_, x)| **x != 0);
    for (a, x) in words.by_ref().take(16) {
        Line::new().right(a, 8).to(10).word(*x).say(rt)?;
    }
    let more = words.count();
    if more != 0 {
        println!(rt; "  and {more} more that are not 0")?;
    }
    Ok(())
}

impl Bench<'_> {
    // A word that a program writes to the terminal or to the printer: operation 1.
    pub(crate) fn say_written(&self, rt: &impl Print, d: u8) -> io::Result<()> {
        if (d == 0 || d == 3)
            && let [1, _, word, _] = self.record(d)
        {
            rt.write_all(self.path)?;
            Line::new()
                .put(b": ")
                .device(d)
                .put(b" wrote ")
                .word(*word)
                .say(rt)?;
        }
        Ok(())
    }

    // The device that has started, with the four words of its record.
    fn say_start(&self, rt: &impl Print, d: u8) -> io::Result<()> {
        Line::new().device(d).put(b" started").say(rt)?;
        if let [operation, status, argument, unit] = self.record(d) {
            Line::new()
                .put(b"  record        operation ")
                .word(*operation)
                .put(b", status ")
                .word(*status)
                .put(b", argument ")
                .word(*argument)
                .put(b", unit ")
                .word(*unit)
                .say(rt)?;
        }
        Ok(())
    }

    fn say_end(&self, rt: &impl Print, end: End, count: u32) -> io::Result<()> {
        let m = &self.machine;
        match end {
            End::Budget => println!(rt; "budget of {count} instructions used up"),
            End::Idle => {
                if first(m.created, &m.processes).iter().all(|p| p.ended) {
                    println!(rt; "idle: every process has ended")
                } else {
                    println!(rt; "idle: nobody can run")
                }
            }
            End::Waited => {
                println!(rt; "idle: still waiting for the clock, after {IDLE} ticks of waiting")
            }
            End::Started(d) => self.say_start(rt, d),
            End::Stopped => say_stop(rt, m.stop, m.line),
            End::Refused(refusal) => shown::say_refusal(rt, refusal),
        }
    }

    pub(crate) fn show(&self, rt: &impl Print, end: End, count: u32) -> io::Result<()> {
        let m = &self.machine;
        rt.write_all(self.path)?;
        print!(rt; ": ")?;
        self.say_end(rt, end, count)?;
        println!(rt; "  instructions  {count}")?;
        println!(rt; "  clock         {}.{:04} s", m.seconds, m.fraction)?;
        println!(rt)?;
        say_processes(rt, m)?;
        println!(rt)?;
        say_gates(rt, m)?;
        println!(rt)?;
        say_common(rt, &self.common)?;
        println!(rt)
    }
}

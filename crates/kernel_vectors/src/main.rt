// Runs each kernel call with each of its faults, each event, the selection and the limits, and says the state after each.
#![tactic(auto)]

ghost use Rattle.std.specs.Prelude.{◌≤◌};

use Step::{
    Base, Bell, Call, Count, Deep, Done, Fresh, Gates, Job, See, Slice, Ticks, Time, Words,
};
use image::Header;
use kernel::{Act, Caller};
use machine::{Gate, Machine, Process, Queue, Regs};
use std::io;

// What is done. Base, Words and See say no state after it.
enum Step {
    // a fresh machine: devices, V, n
    Fresh(u16, u16, u16),
    // the running process's address is 0, its stack gets words, the last on top, then it calls k
    Call(u16, &'static [u16]),
    // the same with j words, the last of them given; below those is what is there
    Deep(u16, usize, &'static [u16]),
    // the running process's B and S
    Base(u16),
    // a process's words from an address on
    Words(u8, u16, &'static [u16]),
    // so many of a process's words, from an address on, are said
    See(u8, u16, u16),
    Ticks(u16),
    Bell,
    // a device with a status and an argument
    Done(u8, u16, u16),
    // a process is in a job, with a reason
    Job(u8, u16),
    // the running process's slice
    Slice(u8),
    // seconds and fraction
    Time(u16, u16),
    // the count of the selections
    Count(u8),
    // gates are made, each by call 10 and left by call 7: how many
    Gates(u16),
}

// The steps: one table of all is too large for the check of one declaration.
#[rattlefmt::skip]
static CREATING: [Step; 107] = [
    // Calls 0, 1, 2: seconds, room, stops.
    Fresh(2, 0, 8),
    Call(1, &[]),
    Time(77, 0),
    Call(1, &[]),
    Base(2049),
    Call(1, &[]),
    Base(2048),
    Call(1, &[]),
    Call(10, &[]),
    Base(4096),
    Fresh(2, 1024, 8),
    Base(3073),
    Call(1, &[]),
    Base(3072),
    Call(1, &[]),
    Base(4090),
    Words(0, 4090, &[3]),
    Call(2, &[]),
    Call(2, &[0]),
    Call(2, &[1]),
    Call(2, &[2]),
    Call(2, &[3]),
    Call(2, &[4]),
    Call(2, &[5]),
    Call(2, &[6]),
    Call(2, &[7]),
    Call(2, &[65535]),
    Call(2, &[32768]),
    Call(12, &[]),
    Call(65535, &[]),
    Call(0, &[]),
    Time(9, 9980),
    Ticks(1),
    Ticks(1),
    // Call 3: too few words, by whom, its ranges, the words handed to the child.
    Fresh(0, 4, 8),
    Call(3, &[]),
    Call(3, &[0, 0]),
    Call(3, &[0, 1025, 0]),
    Call(3, &[0, 65535, 0]),
    Call(3, &[9, 8, 2, 1, 0]),
    Call(3, &[65535, 4, 0]),
    Call(3, &[0, 1025, 8]),
    Call(3, &[9, 2, 2, 0]),
    Call(3, &[9, 2, 2, 8]),
    Call(3, &[0, 0, 8]),
    Call(3, &[0, 0, 65535]),
    Words(1, 2050, &[99]),
    Call(3, &[11, 22, 2, 2, 7]),
    Ticks(20),
    See(1, 2048, 4),
    Call(3, &[0, 0]),
    Call(3, &[0, 0, 0]),
    Call(3, &[0, 1025, 8]),
    Call(0, &[]),
    Call(3, &[0, 0, 0]),
    Ticks(20),
    Call(4, &[]),
    Words(0, 4095, &[31]),
    Words(0, 4094, &[32]),
    Deep(3, 1027, &[51, 52, 1024, 1024, 0]),
    See(3, 2048, 2),
    See(3, 3070, 3),
    Call(0, &[]),
    // Ten processes; the eleventh.
    Fresh(31, 0, 8),
    Call(10, &[]),
    Call(3, &[0, 0, 0]),
    Call(3, &[0, 0, 1]),
    Call(3, &[0, 0, 2]),
    Call(3, &[0, 0, 3]),
    Call(3, &[0, 0, 4]),
    Call(3, &[0, 0, 5]),
    Call(3, &[0, 0, 6]),
    Call(3, &[0, 0, 7]),
    Count(0),
    Call(3, &[0, 0, 0]),
    Call(3, &[0, 0, 0]),
    Call(3, &[0, 1025, 8]),
    // Each of them waits for a device, the clock or the gate.
    Call(0, &[]),
    Words(1, 2050, &[0, 7, 40, 50]),
    Words(2, 2050, &[1, 7, 41, 51]),
    Words(3, 2050, &[2, 7, 42, 52]),
    Words(4, 2050, &[3, 7, 43, 53]),
    Words(5, 2050, &[0, 7, 44, 54]),
    Words(4, 2050, &[3, 7, 43, 53]),
    Call(11, &[0, 2050]),
    Call(11, &[1, 2050]),
    Call(11, &[2, 2050]),
    Call(11, &[3, 2050]),
    Call(11, &[4, 2050]),
    Call(6, &[0]),
    Call(6, &[0]),
    Call(0, &[]),
    Done(3, 0, 603),
    Done(0, 0, 600),
    Done(4, 2, 604),
    Done(2, 0, 602),
    Done(1, 6, 601),
    See(1, 2050, 4),
    See(2, 2050, 4),
    See(3, 2050, 4),
    See(4, 2050, 4),
    See(5, 2050, 4),
    Time(0, 9990),
    Ticks(1),
    Call(7, &[0]),
    Call(4, &[]),
    Call(7, &[0]),
];

#[rattlefmt::skip]
static GATES: [Step; 133] = [
    // Call 4: while holding, then not; an idle machine takes events.
    Fresh(1, 0, 8),
    Call(10, &[]),
    Call(4, &[]),
    Call(7, &[0]),
    Call(4, &[]),
    Ticks(1),
    Bell,
    Fresh(0, 0, 8),
    Call(3, &[0, 0, 0]),
    Call(4, &[]),
    Call(4, &[]),
    // Call 5: each answer in its order.
    Fresh(0, 0, 8),
    Call(3, &[0, 0, 0]),
    Ticks(20),
    Job(0, 0),
    Call(5, &[]),
    Call(5, &[0]),
    Call(5, &[2, 15]),
    Call(5, &[65535, 20]),
    Call(5, &[1, 15]),
    Call(5, &[1, 20]),
    Call(5, &[0, 15]),
    Call(5, &[0, 256]),
    Call(5, &[0, 65535]),
    Call(5, &[0, 16]),
    Call(5, &[0, 15]),
    Call(5, &[0, 20]),
    Fresh(0, 0, 8),
    Call(3, &[0, 0, 0]),
    Ticks(20),
    Job(0, 0),
    Call(5, &[0, 255]),
    // Calls 6 to 10: faults.
    Fresh(0, 0, 8),
    Call(6, &[]),
    Call(7, &[]),
    Call(8, &[0]),
    Call(9, &[0]),
    Call(6, &[0]),
    Call(7, &[0]),
    Call(8, &[0, 0]),
    Call(9, &[0, 0]),
    Call(10, &[]),
    Call(6, &[0]),
    Call(6, &[1]),
    Call(6, &[65535]),
    Call(7, &[1]),
    Call(7, &[65535]),
    Call(8, &[1, 0]),
    Call(9, &[1, 0]),
    Call(8, &[0, 8]),
    Call(8, &[0, 65535]),
    Call(9, &[0, 8]),
    Call(9, &[0, 65535]),
    Call(7, &[0]),
    Call(7, &[0]),
    Call(8, &[0, 0]),
    Call(9, &[0, 0]),
    // Enter open, nested gates, continue and delay with none.
    Call(6, &[0]),
    Call(10, &[]),
    Call(7, &[0]),
    Call(8, &[0, 0]),
    Call(9, &[0, 0]),
    Call(7, &[1]),
    Call(9, &[0, 0]),
    Call(6, &[0]),
    Call(8, &[0, 3]),
    // Enter shut; leave with two waiters, with one, with none.
    Fresh(0, 0, 8),
    Call(10, &[]),
    Call(3, &[0, 0, 0]),
    Call(3, &[0, 0, 0]),
    Call(3, &[0, 0, 0]),
    Call(0, &[]),
    Call(6, &[0]),
    Call(6, &[0]),
    Call(0, &[]),
    Time(5, 9990),
    Ticks(1),
    Call(7, &[0]),
    Call(7, &[0]),
    Call(7, &[0]),
    // Delay with waiters; a continued process before the waiters; delay on a filled cell; continue on an empty one.
    Fresh(0, 0, 8),
    Call(10, &[]),
    Call(3, &[0, 0, 0]),
    Call(3, &[0, 0, 0]),
    Call(3, &[0, 0, 0]),
    Call(0, &[]),
    Call(6, &[0]),
    Call(6, &[0]),
    Call(0, &[]),
    Time(5, 9990),
    Ticks(1),
    Call(8, &[0, 0]),
    Call(9, &[0, 0]),
    Call(8, &[0, 7]),
    Call(8, &[0, 7]),
    Call(9, &[0, 5]),
    Call(6, &[0]),
    Call(8, &[0, 6]),
    Call(6, &[0]),
    Call(9, &[0, 6]),
    // Continue on an empty cell with a waiter.
    Fresh(0, 0, 8),
    Call(10, &[]),
    Call(3, &[0, 0, 0]),
    Call(0, &[]),
    Call(6, &[0]),
    Time(5, 9990),
    Ticks(1),
    Call(9, &[0, 1]),
    Call(7, &[0]),
    // Nested: a delay and a wait keep class 0.
    Fresh(0, 0, 8),
    Call(10, &[]),
    Call(10, &[]),
    Call(3, &[0, 0, 0]),
    Call(3, &[0, 0, 0]),
    Call(8, &[1, 2]),
    Call(6, &[0]),
    Call(6, &[1]),
    Call(9, &[1, 2]),
    Call(7, &[1]),
    Call(7, &[0]),
    Fresh(0, 0, 8),
    Call(10, &[]),
    Call(7, &[0]),
    Call(10, &[]),
    Call(3, &[0, 0, 0]),
    Call(0, &[]),
    Call(10, &[]),
    Call(6, &[1]),
    Time(0, 9990),
    Ticks(1),
    Call(7, &[1]),
    Call(7, &[1]),
    Call(7, &[2]),
];

#[rattlefmt::skip]
static LIMITS: [Step; 37] = [
    // The 25th gate and the 26th; the eighth held and the ninth.
    Fresh(0, 0, 8),
    Gates(24),
    Call(10, &[]),
    Call(10, &[]),
    Base(2048),
    Call(10, &[]),
    Fresh(0, 0, 8),
    Gates(1),
    Call(10, &[]),
    Call(10, &[]),
    Call(10, &[]),
    Call(10, &[]),
    Call(10, &[]),
    Call(10, &[]),
    Call(10, &[]),
    Call(6, &[0]),
    Call(10, &[]),
    Call(7, &[0]),
    Call(10, &[]),
    Call(6, &[0]),
    Base(2048),
    Call(10, &[]),
    // Eight held at 25 gates: 9 first.
    Fresh(0, 0, 8),
    Gates(17),
    Call(10, &[]),
    Call(10, &[]),
    Call(10, &[]),
    Call(10, &[]),
    Call(10, &[]),
    Call(10, &[]),
    Call(10, &[]),
    Call(10, &[]),
    Call(10, &[]),
    // A delay with eight held; continued, it holds eight again.
    Call(3, &[0, 0, 0]),
    Call(8, &[24, 0]),
    Call(6, &[24]),
    Call(9, &[24, 0]),
];

#[rattlefmt::skip]
static DEVICES: [Step; 124] = [
    // Call 11: the record, the device, the operation.
    Fresh(15, 0, 8),
    Call(11, &[]),
    Call(11, &[1]),
    Call(11, &[1, 2045]),
    Call(11, &[1, 2046]),
    Call(11, &[1, 2047]),
    Call(11, &[1, 4093]),
    Call(11, &[1, 4095]),
    Call(11, &[1, 4096]),
    Call(11, &[1, 65535]),
    Call(11, &[5, 2045]),
    Call(11, &[5, 100]),
    Call(11, &[65535, 100]),
    Words(0, 100, &[4, 9, 5, 6]),
    Call(11, &[1, 100]),
    Words(0, 100, &[65535]),
    Call(11, &[1, 100]),
    Words(0, 100, &[0]),
    Call(11, &[4, 100]),
    See(0, 100, 4),
    Words(0, 2044, &[0, 9, 5, 6]),
    Call(11, &[1, 2044]),
    See(0, 2044, 4),
    Done(1, 0, 77),
    See(0, 2044, 4),
    Words(0, 2048, &[1, 9, 5, 6]),
    Call(11, &[2, 2048]),
    Done(2, 0, 88),
    See(0, 2048, 4),
    Base(4000),
    Words(0, 4092, &[0, 9, 5, 6]),
    Call(11, &[3, 4092]),
    Done(3, 1, 99),
    See(0, 4092, 4),
    Words(0, 0, &[2, 9, 5, 6]),
    Call(11, &[1, 0]),
    Done(1, 6, 99),
    See(0, 0, 4),
    Words(0, 0, &[3, 9, 5, 6]),
    Call(11, &[1, 0]),
    Done(1, 0, 99),
    See(0, 0, 4),
    Done(1, 0, 5),
    Done(5, 0, 5),
    // The operation kept from the start decides.
    Words(0, 0, &[0, 9, 5, 6]),
    Call(11, &[1, 0]),
    Words(0, 0, &[1]),
    Done(1, 0, 65535),
    See(0, 0, 4),
    Words(0, 0, &[1, 9, 5, 6]),
    Call(11, &[1, 0]),
    Words(0, 0, &[0]),
    Done(1, 0, 98),
    See(0, 0, 4),
    // Busy; two private records.
    Fresh(31, 0, 8),
    Call(3, &[0, 0, 0]),
    Ticks(20),
    Words(1, 2048, &[0, 9, 5, 6]),
    Call(11, &[1, 2048]),
    Words(0, 100, &[0, 9, 5, 6]),
    Call(11, &[1, 100]),
    See(0, 100, 4),
    Words(0, 2048, &[0, 8, 7, 6]),
    Call(11, &[2, 2048]),
    Done(1, 0, 11),
    Done(2, 0, 22),
    See(0, 2048, 4),
    See(1, 2048, 4),
    // Class 1 at gates: kept in waiting, 2 after leaving.
    Call(10, &[]),
    Call(0, &[]),
    Call(6, &[0]),
    Time(0, 9990),
    Ticks(1),
    Call(7, &[0]),
    Call(7, &[0]),
    // Holding at a done: class 0.
    Fresh(31, 0, 8),
    Call(10, &[]),
    Call(3, &[0, 0, 0]),
    Words(0, 0, &[2]),
    Call(11, &[4, 0]),
    Done(4, 0, 9),
    Call(7, &[0]),
    // A process of class 1 makes another, waits for the bell and for the clock.
    Fresh(31, 0, 8),
    Call(11, &[1, 0]),
    Done(1, 0, 4),
    Call(3, &[0, 0, 0]),
    Words(0, 50, &[3]),
    Call(11, &[0, 50]),
    Bell,
    Call(0, &[]),
    Time(0, 9990),
    Ticks(1),
    // Control on the terminal: absent, present, busy; a done wakes no bell waiter.
    Fresh(30, 0, 8),
    Words(0, 50, &[3]),
    Words(0, 51, &[9]),
    Call(11, &[0, 50]),
    See(0, 50, 4),
    Fresh(1, 0, 8),
    Words(0, 50, &[3]),
    Words(0, 51, &[9]),
    Call(11, &[0, 50]),
    See(0, 50, 4),
    Bell,
    Fresh(1, 0, 8),
    Call(3, &[0, 0, 0]),
    Call(11, &[0, 2048]),
    Words(0, 50, &[3]),
    Call(11, &[0, 50]),
    Done(0, 0, 5),
    Bell,
    Call(4, &[]),
    Call(4, &[]),
    // The bell with none and with two.
    Fresh(1, 0, 8),
    Bell,
    Call(3, &[0, 0, 0]),
    Ticks(20),
    Words(1, 50, &[3]),
    Call(11, &[0, 50]),
    Call(3, &[0, 0, 0]),
    Ticks(20),
    Call(11, &[0, 50]),
    Bell,
    Call(11, &[0, 50]),
    Bell,
];

#[rattlefmt::skip]
static CLASSES: [Step; 74] = [
    // Ticks: a second, three clock waiters, the end of time, slices.
    Fresh(0, 0, 8),
    Ticks(19),
    Ticks(1),
    Ticks(979),
    Ticks(1),
    Ticks(1),
    Fresh(0, 0, 8),
    Call(10, &[]),
    Call(3, &[0, 0, 0]),
    Call(3, &[0, 0, 0]),
    Call(3, &[0, 0, 0]),
    Call(7, &[0]),
    Call(0, &[]),
    Call(0, &[]),
    Call(0, &[]),
    Time(3, 9980),
    Ticks(1),
    Ticks(1),
    Slice(190),
    Ticks(1),
    Slice(190),
    Call(4, &[]),
    Ticks(1),
    Ticks(1),
    Fresh(0, 0, 8),
    Time(32767, 9990),
    Ticks(1),
    Slice(190),
    Ticks(1),
    // A slice ends as a clock waiter wakes.
    Fresh(0, 0, 8),
    Call(3, &[0, 0, 0]),
    Call(0, &[]),
    Time(0, 9990),
    Slice(190),
    Ticks(1),
    // Class 1 falls: alone, before class 2, before another of class 1.
    Fresh(31, 0, 8),
    Call(11, &[1, 0]),
    Done(1, 0, 4),
    Slice(190),
    Ticks(1),
    Fresh(31, 0, 8),
    Call(3, &[0, 0, 0]),
    Call(11, &[1, 0]),
    Done(1, 0, 4),
    Slice(190),
    Ticks(1),
    Fresh(31, 0, 8),
    Call(3, &[0, 0, 0]),
    Call(11, &[1, 0]),
    Call(11, &[2, 0]),
    Done(2, 0, 4),
    Done(1, 0, 4),
    Slice(190),
    Ticks(1),
    // Class 0: with class 2 ready, with class 0 ready.
    Fresh(0, 0, 8),
    Call(10, &[]),
    Call(3, &[0, 0, 0]),
    Slice(190),
    Ticks(1),
    Call(0, &[]),
    Call(10, &[]),
    Time(0, 9990),
    Ticks(1),
    Slice(190),
    Ticks(1),
    // The parent goes to the tail of class 0; of class 2.
    Call(3, &[0, 0, 0]),
    Call(7, &[1]),
    Call(7, &[0]),
    Fresh(0, 0, 8),
    Call(3, &[0, 0, 0]),
    Ticks(20),
    Slice(190),
    Ticks(1),
    Call(3, &[0, 0, 0]),
];

#[rattlefmt::skip]
static COUNTING: [Step; 66] = [
    // The count: 1 to 8 from class 0 while class 2 waits; the ninth is from class 2, marked.
    Fresh(31, 0, 8),
    Call(10, &[]),
    Call(3, &[0, 0, 0]),
    Call(3, &[0, 0, 0]),
    Call(0, &[]),
    Call(10, &[]),
    Time(0, 9990),
    Ticks(1),
    Ticks(20),
    Ticks(20),
    Ticks(20),
    Ticks(20),
    Ticks(20),
    Ticks(20),
    Ticks(20),
    Ticks(20),
    Ticks(20),
    Bell,
    Ticks(1),
    Ticks(17),
    Ticks(1),
    // Marked at 8 with classes 0 and 1 empty; better classes woken by a tick, the bell and a done do not displace it.
    Fresh(15, 0, 8),
    Gates(1),
    Call(10, &[]),
    Call(3, &[0, 0, 0]),
    Call(3, &[0, 0, 0]),
    Call(3, &[0, 0, 0]),
    Call(3, &[0, 0, 0]),
    Call(0, &[]),
    Call(11, &[1, 0]),
    Done(1, 0, 4),
    Words(0, 50, &[3]),
    Call(11, &[0, 50]),
    Call(11, &[2, 0]),
    Call(6, &[0]),
    Call(8, &[0, 5]),
    Call(0, &[]),
    Time(0, 9990),
    Ticks(1),
    Call(3, &[0, 0, 0]),
    Call(0, &[]),
    Count(8),
    Ticks(20),
    Time(0, 9990),
    Ticks(1),
    Bell,
    Done(2, 0, 4),
    // It keeps the mark: entering an open gate, leave, continue, a new gate, calls 1 and 5, an absent device, a stop.
    Call(6, &[0]),
    Call(7, &[0]),
    Call(6, &[0]),
    Call(9, &[0, 3]),
    Call(6, &[0]),
    Call(9, &[0, 5]),
    Call(10, &[]),
    Call(7, &[2]),
    Call(1, &[]),
    Call(5, &[9, 16]),
    Call(11, &[4, 100]),
    Call(3, &[0, 0, 0]),
    Call(12, &[]),
    Call(7, &[2]),
    Call(6, &[2]),
    Call(4, &[]),
    Call(7, &[2]),
    Slice(190),
    Ticks(1),
];

#[rattlefmt::skip]
static UNMARKING: [Step; 124] = [
    // Giving up the processor ends the mark: clock, shut gate, delay, bell, call 3, device, end; nobody runs.
    Fresh(31, 0, 8),
    Gates(1),
    Call(10, &[]),
    Call(3, &[0, 0, 0]),
    Call(3, &[0, 0, 0]),
    Call(3, &[0, 0, 0]),
    Call(0, &[]),
    Count(8),
    Ticks(20),
    Call(0, &[]),
    Count(8),
    Ticks(20),
    Call(6, &[1]),
    Count(8),
    Time(0, 9990),
    Ticks(1),
    Call(6, &[0]),
    Call(8, &[0, 0]),
    Count(8),
    Call(7, &[1]),
    Words(0, 50, &[3]),
    Call(11, &[0, 50]),
    Count(8),
    Call(0, &[]),
    Call(3, &[0, 1025, 0]),
    Call(3, &[0, 0, 0]),
    Count(8),
    Ticks(20),
    Call(11, &[1, 0]),
    Count(8),
    Done(1, 0, 4),
    Call(4, &[]),
    Fresh(31, 0, 8),
    Call(3, &[0, 0, 0]),
    Count(8),
    Call(0, &[]),
    Call(0, &[]),
    Fresh(31, 0, 8),
    Count(8),
    Words(0, 50, &[3]),
    Call(11, &[0, 50]),
    Bell,
    Call(11, &[0, 50]),
    Count(8),
    Bell,
    Call(11, &[1, 0]),
    Done(1, 0, 4),
    Call(10, &[]),
    Call(7, &[0]),
    Count(8),
    Call(11, &[0, 50]),
    Bell,
    Call(6, &[0]),
    Call(8, &[0, 1]),
    Fresh(31, 0, 8),
    Call(10, &[]),
    Call(3, &[0, 0, 0]),
    Call(0, &[]),
    Count(8),
    Words(0, 50, &[3]),
    Call(11, &[0, 50]),
    Bell,
    Call(6, &[0]),
    Fresh(31, 0, 8),
    Count(8),
    Words(0, 50, &[3]),
    Call(11, &[0, 50]),
    Bell,
    Call(4, &[]),
    // The slice ends the mark: not set anew, where it runs on, in class 0.
    Fresh(31, 0, 8),
    Call(3, &[0, 0, 0]),
    Call(3, &[0, 0, 0]),
    Call(11, &[1, 0]),
    Slice(100),
    Count(8),
    Done(1, 0, 4),
    Call(4, &[]),
    Call(11, &[1, 0]),
    Count(8),
    Done(1, 0, 4),
    Ticks(9),
    Ticks(1),
    Count(8),
    Call(11, &[1, 0]),
    Slice(190),
    Ticks(1),
    Done(1, 0, 4),
    Count(8),
    Call(11, &[1, 0]),
    Call(10, &[]),
    Done(1, 0, 4),
    Slice(190),
    Ticks(1),
    Call(7, &[0]),
    Call(10, &[]),
    Call(0, &[]),
    Call(3, &[0, 0, 0]),
    Count(8),
    Ticks(20),
    Call(6, &[0]),
    Time(0, 9990),
    Ticks(1),
    Slice(190),
    Ticks(1),
    Call(0, &[]),
    // At 8 with class 2 empty the best class runs and the count stays; class 1 is not counted either while class 2 is empty.
    Fresh(31, 0, 8),
    Call(11, &[1, 0]),
    Count(3),
    Done(1, 0, 4),
    Call(11, &[1, 0]),
    Count(8),
    Done(1, 0, 4),
    Call(3, &[0, 0, 0]),
    Call(0, &[]),
    Fresh(31, 0, 8),
    Call(10, &[]),
    Call(0, &[]),
    Count(8),
    Time(0, 9990),
    Ticks(1),
    Call(7, &[0]),
    Call(0, &[]),
    Time(0, 9990),
    Ticks(1),
];

#[rattlefmt::skip]
static ALONE: [Step; 108] = [
    // A lone process of class 2 displaced at 7, then at 8, where it takes itself; so at the end of a slice, fallen, leaving.
    Fresh(31, 0, 8),
    Call(3, &[0, 0, 0]),
    Call(11, &[1, 0]),
    Done(1, 0, 4),
    Call(11, &[1, 0]),
    Count(7),
    Done(1, 0, 4),
    Call(11, &[1, 0]),
    Done(1, 0, 4),
    Ticks(20),
    Call(11, &[1, 0]),
    Count(8),
    Done(1, 0, 4),
    Call(0, &[]),
    Fresh(31, 0, 8),
    Call(10, &[]),
    Call(3, &[0, 0, 0]),
    Call(0, &[]),
    Count(8),
    Time(0, 9990),
    Slice(190),
    Ticks(1),
    Count(8),
    Slice(190),
    Ticks(1),
    Fresh(31, 0, 8),
    Call(3, &[0, 0, 0]),
    Call(11, &[1, 0]),
    Call(11, &[2, 0]),
    Done(1, 0, 4),
    Done(2, 0, 4),
    Count(8),
    Slice(190),
    Ticks(1),
    Fresh(31, 0, 8),
    Call(10, &[]),
    Call(3, &[0, 0, 0]),
    Call(0, &[]),
    Call(6, &[0]),
    Time(0, 9990),
    Ticks(1),
    Count(8),
    Call(7, &[0]),
    // A selection from class 2 by class alone: the count is 0, no mark.
    Fresh(31, 0, 8),
    Call(3, &[0, 0, 0]),
    Count(5),
    Ticks(20),
    Count(7),
    Call(0, &[]),
    Call(0, &[]),
    Count(7),
    Time(0, 9990),
    Ticks(1),
    // Call 3 of a lone parent: class 2, class 0, and both at 8; at 7; marked.
    Fresh(31, 0, 8),
    Call(3, &[0, 0, 0]),
    Fresh(31, 0, 8),
    Count(8),
    Call(3, &[0, 0, 0]),
    Call(3, &[0, 0, 0]),
    Fresh(31, 0, 8),
    Call(10, &[]),
    Call(3, &[0, 0, 0]),
    Count(7),
    Call(3, &[0, 0, 0]),
    Call(3, &[0, 0, 0]),
    Call(0, &[]),
    Fresh(31, 0, 8),
    Call(10, &[]),
    Count(8),
    Call(3, &[0, 0, 0]),
    Call(4, &[]),
    Fresh(31, 0, 8),
    Count(8),
    Call(3, &[0, 0, 0]),
    Count(8),
    Call(3, &[0, 0, 0]),
    // States that are not sound.
    Fresh(0, 0, 8),
    Slice(190),
    Slice(195),
    Slice(200),
    Slice(0),
    Time(32767, 9990),
    Time(32768, 0),
    Time(0, 10000),
    Time(0, 5),
    Time(0, 0),
    Count(8),
    Count(9),
    Count(255),
    Count(0),
    Job(0, 16),
    Job(0, 255),
    Job(0, 15),
    Job(0, 256),
    Fresh(0, 0, 8),
    Call(10, &[]),
    Job(0, 0),
    Fresh(0, 0, 8),
    Call(3, &[0, 0, 0]),
    Call(0, &[]),
    Job(0, 0),
    Fresh(32, 0, 8),
    Fresh(0, 1024, 8),
    Fresh(0, 1025, 8),
    Fresh(0, 0, 1),
    Fresh(0, 0, 0),
    Fresh(0, 0, 16256),
    Fresh(0, 0, 16257),
];

// Where a process has an address of its own part. As the kernel's, which is not public.
fn own(q: u8, a: u16) -> usize
    requires { 2048 ≤ a }
{
    Machine::PART * usize::from(q) + usize::from(a - Machine::OWN)
}

// The first n of the numbers, each after a mark.
fn say_numbers(rt: &impl Print, mark: &str, n: u8, numbers: &[u8]) -> io::Result<()> {
    for x in numbers.iter().take(usize::from(n)) {
        print!(rt; "{mark}{x}")?;
    }
    Ok(())
}

fn say_queue(rt: &impl Print, queue: &Queue) -> io::Result<()> {
    say_numbers(rt, " ", queue.len, &queue.at)
}

// A gate that is shut, or has somebody waiting or delayed.
fn say_gate(rt: &impl Print, g: usize, gate: &Gate) -> io::Result<()> {
    let shut = gate.holder < Machine::NOBODY;
    let delayed = gate.cells.iter().any(|q| *q < Machine::NOBODY);
    if !shut && !delayed && gate.queue.len == 0 {
        return Ok(());
    }
    if shut {
        print!(rt; " {g}/{}", gate.holder)?;
    } else {
        print!(rt; " {g}/-")?;
    }
    say_numbers(rt, "<", gate.queue.len, &gate.queue.at)?;
    for (c, q) in gate.cells.iter().enumerate() {
        if *q < Machine::NOBODY {
            print!(rt; "@{c}.{q}")?;
        }
    }
    Ok(())
}

fn say_process(rt: &impl Print, q: u8, p: &Process) -> io::Result<()> {
    let r = &p.regs;
    print!(rt; " {q}={},{},{},{}", p.class, r.address, r.s, r.b)?;
    print!(rt; ",{},{}", p.variables, p.slice)?;
    say_numbers(rt, "+", p.holds, &p.held)?;
    if p.ended {
        print!(rt; "!")?;
    }
    if r.in_job {
        print!(rt; "~{}", r.reason)?;
    }
    Ok(())
}

// A machine with its stores.
#[derive(Drop)]
struct World {
    machine: Machine,
    common: [u16; Machine::COMMON],
    private: [u16; Machine::PRIVATE],
}

impl World {
    fn fresh(devices: u16, variables: u16, length: u16) -> World {
        World {
            machine: Machine::fresh(Header {
                edition: 1,
                length,
                devices,
                variables,
            }),
            common: [0; Machine::COMMON],
            private: [0; Machine::PRIVATE],
        }
    }

    // The word of a process at an address, or 0 where there is none.
    fn peek(&self, q: u8, a: u16) -> u16 {
        let word = if a < Machine::OWN {
            self.common.get(usize::from(a))
        } else if a < Machine::CEILING {
            self.private.get(own(q, a))
        } else {
            None
        };
        word.copied().unwrap_or(0)
    }

    fn poke(&mut self, q: u8, a: u16, x: u16) {
        if a < Machine::OWN {
            self.common[usize::from(a)] = x;
        } else if a < Machine::CEILING
            && let Some(word) = self.private.get_mut(own(q, a))
        {
            *word = x;
        }
    }

    fn running(&mut self) -> Option<&mut Process> {
        let q = usize::from(self.machine.running);
        self.machine.processes.get_mut(q)
    }

    // Who runs, and the word on top of its stack.
    fn say_running(&self, rt: &impl Print) -> io::Result<()> {
        let m = &self.machine;
        let Some(p) = m.processes.get(usize::from(m.running)) else {
            return print!(rt; ": idle");
        };
        print!(rt; ": runs {}", m.running)?;
        if p.regs.s < Machine::CEILING {
            print!(rt; " top {}", self.peek(m.running, p.regs.s))?;
        }
        Ok(())
    }

    fn say_queues(&self, rt: &impl Print) -> io::Result<()> {
        let m = &self.machine;
        print!(rt; "; ready")?;
        say_queue(rt, &m.ready[0])?;
        print!(rt; " |")?;
        say_queue(rt, &m.ready[1])?;
        print!(rt; " |")?;
        say_queue(rt, &m.ready[2])?;
        print!(rt; "; clock")?;
        say_queue(rt, &m.clock)?;
        print!(rt; "; bell")?;
        say_queue(rt, &m.bell)
    }

    fn say_gates(&self, rt: &impl Print) -> io::Result<()> {
        print!(rt; "; gates {}", self.machine.made)?;
        for (g, gate) in self.machine.gates.iter().enumerate() {
            say_gate(rt, g, gate)?;
        }
        Ok(())
    }

    fn say_devices(&self, rt: &impl Print) -> io::Result<()> {
        print!(rt; "; busy")?;
        for (d, x) in self.machine.devices.iter().enumerate() {
            if x.process < Machine::NOBODY {
                print!(rt; " {d}/{}.{}.{}", x.process, x.operation, x.address)?;
            }
        }
        Ok(())
    }

    fn say_state(&self, rt: &impl Print) -> io::Result<()> {
        let m = &self.machine;
        self.say_running(rt)?;
        self.say_queues(rt)?;
        self.say_gates(rt)?;
        self.say_devices(rt)?;
        print!(rt; "; time {} {}; count {}", m.seconds, m.fraction, m.count)?;
        // whether the running process is marked
        if m.mark {
            print!(rt; " marked")?;
        }
        print!(rt; ";")?;
        for (q, p) in (0..m.created).zip(&m.processes) {
            say_process(rt, q, p)?;
        }
        if sound::is_sound(*m) {
            println!(rt; "; sound")
        } else {
            println!(rt; "; unsound")
        }
    }

    // The running process is about to make a call: it has j words on its stack, and these are the last of them, the last on top.
    fn push(&mut self, j: usize, words: &[u16]) {
        let q = self.machine.running;
        let Some(p) = self.running() else {
            return;
        };
        p.regs.address = 0;
        let b = usize::from(p.regs.b);
        if j <= b {
            p.regs.s = (b - j) as u16;
        }
        let s = p.regs.s;
        for (a, x) in (s..).zip(words.iter().rev()) {
            self.poke(q, a, *x);
        }
    }

    // A kernel call of the running process: what is decided, and the machine after the move.
    fn decide(&mut self, k: u16) -> Act {
        let process = match self.running() {
            Some(p) => *p,
            None => Process::started(0, 0),
        };
        let m = self.machine;
        // named first: the borrow checker does not cover a field that is an array put straight into a literal
        let devices = m.devices;
        let who = Caller {
            number: m.running,
            process,
            seconds: m.seconds,
            created: m.created,
            made: m.made,
            length: m.length,
            present: m.present,
            devices,
        };
        let common = &mut self.common;
        let private = &mut self.private;
        let decision = kernel::decide(who, m.processes, m.gates, k, common, private);
        if let Some(p) = self.running() {
            *p = decision.process;
        }
        self.machine = kernel::perform(self.machine, decision.act);
        decision.act
    }

    // A call with its words on the stack; where it goes on, the selection follows.
    fn call(&mut self, rt: &impl Print, k: u16, j: usize, words: &[u16]) -> io::Result<()> {
        self.push(j, words);
        match self.decide(k) {
            Act::Unfit => print!(rt; "unfit")?,
            Act::Stop(..) => print!(rt; "stops {}", self.machine.stop)?,
            Act::Start(d, _, _) => {
                print!(rt; "starts {d} record")?;
                for x in kernel::record(self.machine, d, &self.common, &self.private) {
                    print!(rt; " {x}")?;
                }
                self.machine = self.machine.select();
            }
            _ => {
                print!(rt; "on")?;
                self.machine = self.machine.select();
            }
        }
        self.say_state(rt)
    }

    // A call that goes on, and the selection.
    fn go(&mut self, k: u16, j: usize) {
        self.push(j, &[]);
        self.decide(k);
        self.machine = self.machine.select();
    }

    fn make_gates(&mut self, rt: &impl Print, n: u16) -> io::Result<()> {
        for _ in 0..n {
            self.go(10, 0);
            self.go(7, 1);
        }
        self.say(rt, "made")
    }

    fn empty_stack(&mut self, b: u16) -> io::Result<()> {
        if let Some(p) = self.running() {
            p.regs.s = b;
            p.regs.b = b;
        }
        Ok(())
    }

    fn write(&mut self, q: u8, a: u16, words: &[u16]) -> io::Result<()> {
        for (b, x) in (a..).zip(words) {
            self.poke(q, b, *x);
        }
        Ok(())
    }

    fn tick(&mut self, rt: &impl Print, n: u16) -> io::Result<()> {
        for _ in 0..n {
            self.machine = self.machine.tick();
        }
        self.say(rt, "tick")
    }

    fn done(&mut self, rt: &impl Print, d: u8, status: u16, arg: u16) -> io::Result<()> {
        self.machine = kernel::device_done(
            self.machine,
            d,
            status,
            arg,
            &mut self.common,
            &mut self.private,
        );
        self.say(rt, "done")
    }

    fn set_slice(&mut self, rt: &impl Print, slice: u8) -> io::Result<()> {
        if let Some(p) = self.running() {
            p.slice = slice;
        }
        self.say(rt, "set")
    }

    fn enter_job(&mut self, rt: &impl Print, q: u8, reason: u16) -> io::Result<()> {
        if let Some(p) = self.machine.processes.get_mut(usize::from(q)) {
            let s = p.regs.s;
            p.regs = Regs {
                c: s,
                b: s,
                in_job: true,
                saved_s: s,
                saved_b: p.regs.b,
                saved_address: 0,
                p: 0,
                reason,
                ..p.regs
            };
        }
        self.say(rt, "set")
    }

    fn see(&self, rt: &impl Print, q: u8, a: u16, n: u16) -> io::Result<()> {
        print!(rt; "words")?;
        for b in a..a.saturating_add(n) {
            print!(rt; " {}", self.peek(q, b))?;
        }
        println!(rt)
    }

    // What was done is said, with the state after it.
    fn say(&self, rt: &impl Print, done: &str) -> io::Result<()> {
        print!(rt; "{done}")?;
        self.say_state(rt)
    }

    fn take(&mut self, rt: &impl Print, step: &Step) -> io::Result<()> {
        match *step {
            Fresh(devices, variables, n) => {
                *self = World::fresh(devices, variables, n);
                self.say(rt, "new")
            }
            Call(k, words) => self.call(rt, k, words.len(), words),
            Deep(k, j, words) => self.call(rt, k, j, words),
            Base(b) => self.empty_stack(b),
            Words(q, a, words) => self.write(q, a, words),
            See(q, a, n) => self.see(rt, q, a, n),
            Ticks(n) => self.tick(rt, n),
            Bell => {
                self.machine = self.machine.ring();
                self.say(rt, "bell")
            }
            Done(d, status, arg) => self.done(rt, d, status, arg),
            Job(q, reason) => self.enter_job(rt, q, reason),
            Slice(slice) => self.set_slice(rt, slice),
            Time(seconds, fraction) => {
                self.machine.seconds = seconds;
                self.machine.fraction = fraction;
                self.say(rt, "set")
            }
            Count(n) => {
                self.machine.count = n;
                self.say(rt, "set")
            }
            Gates(n) => self.make_gates(rt, n),
        }
    }

    fn run(&mut self, rt: &impl Print, steps: &[Step]) -> io::Result<()> {
        for step in steps {
            self.take(rt, step)?;
        }
        Ok(())
    }
}

fn main(rt: HostRuntime) -> io::Result<()> {
    let mut world = World::fresh(0, 0, 0);
    world.run(&rt, &CREATING)?;
    world.run(&rt, &GATES)?;
    world.run(&rt, &LIMITS)?;
    world.run(&rt, &DEVICES)?;
    world.run(&rt, &CLASSES)?;
    world.run(&rt, &COUNTING)?;
    world.run(&rt, &UNMARKING)?;
    world.run(&rt, &ALONE)
}

// Runs one instruction of every kind, with each of its faults, in and out of a job, and says what it did.
#![tactic(auto)]

use engine::End;
use machine::{Machine, Regs};
use std::io;

// The code, the registers, whether a gate is held (a case's own, beside no value), the words from S on, and one more word with its
// address.
struct Case {
    code: &'static [u16],
    regs: Regs,
    holding: bool,
    stack: &'static [u16],
    word: Option<(u16, u16)>,
}

// The end of the process's variables, in each case.
const LIMIT: u16 = 2060;

// The registers of a process with an empty stack, where a case does not say otherwise.
const REGS: Regs = Regs {
    address: 0,
    line: 0,
    s: 4096,
    b: 4096,
    c: 4096,
    in_job: false,
    saved_s: 0,
    saved_b: 0,
    saved_address: 0,
    p: 0,
    reason: 0,
};

// The registers of a process in a job, with an empty stack.
const JOB: Regs = Regs {
    s: 4000,
    b: 4000,
    c: 4000,
    in_job: true,
    saved_s: 4000,
    saved_b: 4090,
    saved_address: 1,
    ..REGS
};

const CASE: Case = Case {
    code: &[],
    regs: REGS,
    holding: false,
    stack: &[],
    word: None,
};

// The cases: one table of all is too large for the check of one declaration.

// NEWLINE to RANGE, codes 0 to 7.
#[rattlefmt::skip]
static WORDS: [Case; 47] = [
    Case { code: &[0, 77], ..CASE },
    Case { code: &[0, 65535], ..CASE },
    Case { code: &[0], ..CASE },
    Case { code: &[1, 9], ..CASE },
    Case { code: &[1], ..CASE },
    Case { code: &[1, 9], regs: Regs { s: 2060, b: 2063, ..REGS }, ..CASE },
    Case { code: &[1, 9], regs: Regs { s: 2061, b: 2063, ..REGS }, ..CASE },
    Case { code: &[2], regs: Regs { s: 4095, ..REGS }, stack: &[5], word: Some((5, 123)), ..CASE },
    Case { code: &[2], regs: Regs { s: 4095, ..REGS }, stack: &[2047], word: Some((2047, 8)), ..CASE },
    Case { code: &[2], regs: Regs { s: 4095, ..REGS }, stack: &[2100], word: Some((2100, 44)), ..CASE },
    Case { code: &[2], regs: Regs { s: 4095, ..REGS }, stack: &[4095], ..CASE },
    Case { code: &[2], regs: Regs { s: 4095, ..REGS }, stack: &[4096], ..CASE },
    Case { code: &[2], regs: Regs { s: 4095, ..REGS }, stack: &[65535], ..CASE },
    Case { code: &[2], ..CASE },
    Case { code: &[3], regs: Regs { s: 4094, ..REGS }, stack: &[31, 5], ..CASE },
    Case { code: &[3], regs: Regs { s: 4094, ..REGS }, stack: &[31, 2048], ..CASE },
    Case { code: &[3], regs: Regs { s: 4094, ..REGS }, stack: &[31, 4095], ..CASE },
    Case { code: &[3], regs: Regs { s: 4094, ..REGS }, stack: &[31, 4096], ..CASE },
    Case { code: &[3], regs: Regs { s: 4094, ..REGS }, stack: &[31, 32768], ..CASE },
    Case { code: &[3], regs: Regs { s: 4095, ..REGS }, stack: &[31], ..CASE },
    Case { code: &[4, 65535], ..CASE },
    Case { code: &[4, 0], ..CASE },
    Case { code: &[4, 32767], ..CASE },
    Case { code: &[4, 28671], ..CASE },
    Case { code: &[4, 28672], ..CASE },
    Case { code: &[4, 63488], ..CASE },
    Case { code: &[4], ..CASE },
    Case { code: &[4, 32767], regs: Regs { s: 2060, ..REGS }, ..CASE },
    Case { code: &[4, 1], regs: Regs { s: 2060, ..REGS }, ..CASE },
    Case { code: &[5], regs: Regs { s: 4095, ..REGS }, stack: &[1], ..CASE },
    Case { code: &[5], ..CASE },
    Case { code: &[6, 1, 10, 2], regs: Regs { s: 4094, ..REGS }, stack: &[10, 2048], ..CASE },
    Case { code: &[6, 1, 10, 2], regs: Regs { s: 4094, ..REGS }, stack: &[11, 2048], ..CASE },
    Case { code: &[6, 1, 10, 2], regs: Regs { s: 4094, ..REGS }, stack: &[0, 2048], ..CASE },
    Case { code: &[6, 1, 2, 4095], regs: Regs { s: 4094, ..REGS }, stack: &[2], ..CASE },
    Case { code: &[6, 1, 2, 4096], regs: Regs { s: 4094, ..REGS }, stack: &[2], ..CASE },
    Case { code: &[6, 1, 2, 1], regs: Regs { s: 4094, ..REGS }, stack: &[1, 65535], ..CASE },
    Case { code: &[6, 32768, 32767, 65535], regs: Regs { s: 4094, ..REGS }, stack: &[32767, 32768], ..CASE },
    Case { code: &[6, 1, 10, 2], regs: Regs { s: 4095, ..REGS }, stack: &[10], ..CASE },
    Case { code: &[6, 1, 10], regs: Regs { s: 4094, ..REGS }, stack: &[1, 2], ..CASE },
    Case { code: &[7, 1, 10], regs: Regs { s: 4095, ..REGS }, stack: &[10], ..CASE },
    Case { code: &[7, 1, 10], regs: Regs { s: 4095, ..REGS }, stack: &[11], ..CASE },
    Case { code: &[7, 65533, 3], regs: Regs { s: 4095, ..REGS }, stack: &[65535], ..CASE },
    Case { code: &[7, 65533, 3], regs: Regs { s: 4095, ..REGS }, stack: &[65532], ..CASE },
    Case { code: &[7, 1, 10], ..CASE },
    Case { code: &[7, 1], regs: Regs { s: 4095, ..REGS }, stack: &[1], ..CASE },
    Case { code: &[7, 10, 1], regs: Regs { s: 4095, ..REGS }, stack: &[5], ..CASE },
];

// NOT, NEG, AND and OR.
#[rattlefmt::skip]
static LOGIC: [Case; 26] = [
    Case { code: &[8], regs: Regs { s: 4095, ..REGS }, ..CASE },
    Case { code: &[8], regs: Regs { s: 4095, ..REGS }, stack: &[1], ..CASE },
    Case { code: &[8], regs: Regs { s: 4095, ..REGS }, stack: &[65535], ..CASE },
    Case { code: &[8], regs: Regs { s: 4095, ..REGS }, stack: &[32768], ..CASE },
    Case { code: &[8], ..CASE },
    Case { code: &[11], regs: Regs { s: 4095, ..REGS }, ..CASE },
    Case { code: &[11], regs: Regs { s: 4095, ..REGS }, stack: &[1], ..CASE },
    Case { code: &[11], regs: Regs { s: 4095, ..REGS }, stack: &[65535], ..CASE },
    Case { code: &[11], regs: Regs { s: 4095, ..REGS }, stack: &[32768], ..CASE },
    Case { code: &[11], ..CASE },
    Case { code: &[9], regs: Regs { s: 4094, ..REGS }, stack: &[1, 32767], ..CASE },
    Case { code: &[9], regs: Regs { s: 4094, ..REGS }, stack: &[65535, 32768], ..CASE },
    Case { code: &[9], regs: Regs { s: 4094, ..REGS }, stack: &[3, 65529], ..CASE },
    Case { code: &[9], regs: Regs { s: 4094, ..REGS }, stack: &[0, 7], ..CASE },
    Case { code: &[9], regs: Regs { s: 4094, ..REGS }, stack: &[65533, 7], ..CASE },
    Case { code: &[9], regs: Regs { s: 4094, ..REGS }, stack: &[32768, 65535], ..CASE },
    Case { code: &[9], regs: Regs { s: 4094, ..REGS }, stack: &[182, 182], ..CASE },
    Case { code: &[9], regs: Regs { s: 4095, ..REGS }, stack: &[1], ..CASE },
    Case { code: &[10], regs: Regs { s: 4094, ..REGS }, stack: &[1, 32767], ..CASE },
    Case { code: &[10], regs: Regs { s: 4094, ..REGS }, stack: &[65535, 32768], ..CASE },
    Case { code: &[10], regs: Regs { s: 4094, ..REGS }, stack: &[3, 65529], ..CASE },
    Case { code: &[10], regs: Regs { s: 4094, ..REGS }, stack: &[0, 7], ..CASE },
    Case { code: &[10], regs: Regs { s: 4094, ..REGS }, stack: &[65533, 7], ..CASE },
    Case { code: &[10], regs: Regs { s: 4094, ..REGS }, stack: &[32768, 65535], ..CASE },
    Case { code: &[10], regs: Regs { s: 4094, ..REGS }, stack: &[182, 182], ..CASE },
    Case { code: &[10], regs: Regs { s: 4095, ..REGS }, stack: &[1], ..CASE },
];

// ADD, SUB, MUL and DIV.
#[rattlefmt::skip]
static SUMS: [Case; 32] = [
    Case { code: &[12], regs: Regs { s: 4094, ..REGS }, stack: &[1, 32767], ..CASE },
    Case { code: &[12], regs: Regs { s: 4094, ..REGS }, stack: &[65535, 32768], ..CASE },
    Case { code: &[12], regs: Regs { s: 4094, ..REGS }, stack: &[3, 65529], ..CASE },
    Case { code: &[12], regs: Regs { s: 4094, ..REGS }, stack: &[0, 7], ..CASE },
    Case { code: &[12], regs: Regs { s: 4094, ..REGS }, stack: &[65533, 7], ..CASE },
    Case { code: &[12], regs: Regs { s: 4094, ..REGS }, stack: &[32768, 65535], ..CASE },
    Case { code: &[12], regs: Regs { s: 4094, ..REGS }, stack: &[182, 182], ..CASE },
    Case { code: &[12], regs: Regs { s: 4095, ..REGS }, stack: &[1], ..CASE },
    Case { code: &[13], regs: Regs { s: 4094, ..REGS }, stack: &[1, 32767], ..CASE },
    Case { code: &[13], regs: Regs { s: 4094, ..REGS }, stack: &[65535, 32768], ..CASE },
    Case { code: &[13], regs: Regs { s: 4094, ..REGS }, stack: &[3, 65529], ..CASE },
    Case { code: &[13], regs: Regs { s: 4094, ..REGS }, stack: &[0, 7], ..CASE },
    Case { code: &[13], regs: Regs { s: 4094, ..REGS }, stack: &[65533, 7], ..CASE },
    Case { code: &[13], regs: Regs { s: 4094, ..REGS }, stack: &[32768, 65535], ..CASE },
    Case { code: &[13], regs: Regs { s: 4094, ..REGS }, stack: &[182, 182], ..CASE },
    Case { code: &[13], regs: Regs { s: 4095, ..REGS }, stack: &[1], ..CASE },
    Case { code: &[14], regs: Regs { s: 4094, ..REGS }, stack: &[1, 32767], ..CASE },
    Case { code: &[14], regs: Regs { s: 4094, ..REGS }, stack: &[65535, 32768], ..CASE },
    Case { code: &[14], regs: Regs { s: 4094, ..REGS }, stack: &[3, 65529], ..CASE },
    Case { code: &[14], regs: Regs { s: 4094, ..REGS }, stack: &[0, 7], ..CASE },
    Case { code: &[14], regs: Regs { s: 4094, ..REGS }, stack: &[65533, 7], ..CASE },
    Case { code: &[14], regs: Regs { s: 4094, ..REGS }, stack: &[32768, 65535], ..CASE },
    Case { code: &[14], regs: Regs { s: 4094, ..REGS }, stack: &[182, 182], ..CASE },
    Case { code: &[14], regs: Regs { s: 4095, ..REGS }, stack: &[1], ..CASE },
    Case { code: &[15], regs: Regs { s: 4094, ..REGS }, stack: &[1, 32767], ..CASE },
    Case { code: &[15], regs: Regs { s: 4094, ..REGS }, stack: &[65535, 32768], ..CASE },
    Case { code: &[15], regs: Regs { s: 4094, ..REGS }, stack: &[3, 65529], ..CASE },
    Case { code: &[15], regs: Regs { s: 4094, ..REGS }, stack: &[0, 7], ..CASE },
    Case { code: &[15], regs: Regs { s: 4094, ..REGS }, stack: &[65533, 7], ..CASE },
    Case { code: &[15], regs: Regs { s: 4094, ..REGS }, stack: &[32768, 65535], ..CASE },
    Case { code: &[15], regs: Regs { s: 4094, ..REGS }, stack: &[182, 182], ..CASE },
    Case { code: &[15], regs: Regs { s: 4095, ..REGS }, stack: &[1], ..CASE },
];

// MOD, LESS, EQUAL and GREATER.
#[rattlefmt::skip]
static ORDERS: [Case; 32] = [
    Case { code: &[16], regs: Regs { s: 4094, ..REGS }, stack: &[1, 32767], ..CASE },
    Case { code: &[16], regs: Regs { s: 4094, ..REGS }, stack: &[65535, 32768], ..CASE },
    Case { code: &[16], regs: Regs { s: 4094, ..REGS }, stack: &[3, 65529], ..CASE },
    Case { code: &[16], regs: Regs { s: 4094, ..REGS }, stack: &[0, 7], ..CASE },
    Case { code: &[16], regs: Regs { s: 4094, ..REGS }, stack: &[65533, 7], ..CASE },
    Case { code: &[16], regs: Regs { s: 4094, ..REGS }, stack: &[32768, 65535], ..CASE },
    Case { code: &[16], regs: Regs { s: 4094, ..REGS }, stack: &[182, 182], ..CASE },
    Case { code: &[16], regs: Regs { s: 4095, ..REGS }, stack: &[1], ..CASE },
    Case { code: &[17], regs: Regs { s: 4094, ..REGS }, stack: &[1, 32767], ..CASE },
    Case { code: &[17], regs: Regs { s: 4094, ..REGS }, stack: &[65535, 32768], ..CASE },
    Case { code: &[17], regs: Regs { s: 4094, ..REGS }, stack: &[3, 65529], ..CASE },
    Case { code: &[17], regs: Regs { s: 4094, ..REGS }, stack: &[0, 7], ..CASE },
    Case { code: &[17], regs: Regs { s: 4094, ..REGS }, stack: &[65533, 7], ..CASE },
    Case { code: &[17], regs: Regs { s: 4094, ..REGS }, stack: &[32768, 65535], ..CASE },
    Case { code: &[17], regs: Regs { s: 4094, ..REGS }, stack: &[182, 182], ..CASE },
    Case { code: &[17], regs: Regs { s: 4095, ..REGS }, stack: &[1], ..CASE },
    Case { code: &[18], regs: Regs { s: 4094, ..REGS }, stack: &[1, 32767], ..CASE },
    Case { code: &[18], regs: Regs { s: 4094, ..REGS }, stack: &[65535, 32768], ..CASE },
    Case { code: &[18], regs: Regs { s: 4094, ..REGS }, stack: &[3, 65529], ..CASE },
    Case { code: &[18], regs: Regs { s: 4094, ..REGS }, stack: &[0, 7], ..CASE },
    Case { code: &[18], regs: Regs { s: 4094, ..REGS }, stack: &[65533, 7], ..CASE },
    Case { code: &[18], regs: Regs { s: 4094, ..REGS }, stack: &[32768, 65535], ..CASE },
    Case { code: &[18], regs: Regs { s: 4094, ..REGS }, stack: &[182, 182], ..CASE },
    Case { code: &[18], regs: Regs { s: 4095, ..REGS }, stack: &[1], ..CASE },
    Case { code: &[19], regs: Regs { s: 4094, ..REGS }, stack: &[1, 32767], ..CASE },
    Case { code: &[19], regs: Regs { s: 4094, ..REGS }, stack: &[65535, 32768], ..CASE },
    Case { code: &[19], regs: Regs { s: 4094, ..REGS }, stack: &[3, 65529], ..CASE },
    Case { code: &[19], regs: Regs { s: 4094, ..REGS }, stack: &[0, 7], ..CASE },
    Case { code: &[19], regs: Regs { s: 4094, ..REGS }, stack: &[65533, 7], ..CASE },
    Case { code: &[19], regs: Regs { s: 4094, ..REGS }, stack: &[32768, 65535], ..CASE },
    Case { code: &[19], regs: Regs { s: 4094, ..REGS }, stack: &[182, 182], ..CASE },
    Case { code: &[19], regs: Regs { s: 4095, ..REGS }, stack: &[1], ..CASE },
];

// JUMP to ENTER, codes 20 to 24.
#[rattlefmt::skip]
static JUMPS: [Case; 33] = [
    Case { code: &[20, 1], ..CASE },
    Case { code: &[20, 2], ..CASE },
    Case { code: &[20], ..CASE },
    Case { code: &[5, 20, 0], regs: Regs { address: 1, ..REGS }, ..CASE },
    Case { code: &[21, 0], regs: Regs { s: 4095, ..REGS }, ..CASE },
    Case { code: &[21, 0], regs: Regs { s: 4095, ..REGS }, stack: &[1], ..CASE },
    Case { code: &[21, 2], regs: Regs { s: 4095, ..REGS }, ..CASE },
    Case { code: &[21, 2], regs: Regs { s: 4095, ..REGS }, stack: &[1], ..CASE },
    Case { code: &[21, 0], ..CASE },
    Case { code: &[21], regs: Regs { s: 4095, ..REGS }, ..CASE },
    Case { code: &[22, 5, 2, 0, 1], regs: Regs { s: 4095, ..REGS }, stack: &[5], ..CASE },
    Case { code: &[22, 5, 2, 0, 1], regs: Regs { s: 4095, ..REGS }, stack: &[6], ..CASE },
    Case { code: &[22, 5, 2, 0, 1], regs: Regs { s: 4095, ..REGS }, stack: &[7], ..CASE },
    Case { code: &[22, 5, 2, 0, 1], regs: Regs { s: 4095, ..REGS }, stack: &[4], ..CASE },
    Case { code: &[22, 5, 0], regs: Regs { s: 4095, ..REGS }, stack: &[5], ..CASE },
    Case { code: &[22, 5, 2, 0], regs: Regs { s: 4095, ..REGS }, stack: &[5], ..CASE },
    Case { code: &[22, 5, 65535, 0], regs: Regs { s: 4095, ..REGS }, stack: &[5], ..CASE },
    Case { code: &[22, 5], regs: Regs { s: 4095, ..REGS }, stack: &[5], ..CASE },
    Case { code: &[22, 65535, 2, 0, 5], regs: Regs { s: 4095, ..REGS }, ..CASE },
    Case { code: &[22, 65535, 2, 0, 4], regs: Regs { s: 4095, ..REGS }, ..CASE },
    Case { code: &[22, 32767, 2, 0, 1], regs: Regs { s: 4095, ..REGS }, stack: &[32768], ..CASE },
    Case { code: &[22, 5, 2, 0, 1], ..CASE },
    Case { code: &[23, 1], ..CASE },
    Case { code: &[23, 2], ..CASE },
    Case { code: &[23], ..CASE },
    Case { code: &[23, 1], regs: Regs { s: 2060, ..REGS }, ..CASE },
    Case { code: &[23, 7], regs: Regs { s: 2060, ..REGS }, ..CASE },
    Case { code: &[24, 0], ..CASE },
    Case { code: &[24, 3], regs: Regs { s: 3000, ..REGS }, stack: &[9, 9, 9, 9, 9], ..CASE },
    Case { code: &[24, 1], regs: Regs { s: 2062, b: 4000, ..REGS }, ..CASE },
    Case { code: &[24, 2], regs: Regs { s: 2062, b: 4000, ..REGS }, ..CASE },
    Case { code: &[24, 65535], ..CASE },
    Case { code: &[24], ..CASE },
];

// EXIT to KTRAP, codes 25 to 28.
#[rattlefmt::skip]
static CALLS: [Case; 32] = [
    Case { code: &[25, 0], regs: Regs { s: 4094, b: 4094, ..REGS }, stack: &[4096], ..CASE },
    Case { code: &[25, 1], regs: Regs { s: 4093, b: 4093, ..REGS }, stack: &[4096, 1], ..CASE },
    Case { code: &[25, 2], regs: Regs { s: 4093, b: 4093, ..REGS }, stack: &[4096], ..CASE },
    Case { code: &[25, 0], regs: Regs { s: 4094, b: 4094, ..REGS }, stack: &[4095], ..CASE },
    Case { code: &[25, 0], regs: Regs { s: 4094, b: 4094, ..REGS }, stack: &[4097], ..CASE },
    Case { code: &[25, 0], regs: Regs { s: 4094, b: 4094, ..REGS }, stack: &[4096, 2], ..CASE },
    Case { code: &[25, 0], regs: Regs { s: 4094, b: 4094, ..REGS }, stack: &[65535], ..CASE },
    Case { code: &[25, 65535], regs: Regs { s: 4094, b: 4094, ..REGS }, stack: &[4096], ..CASE },
    Case { code: &[25, 0], ..CASE },
    Case { code: &[25], ..CASE },
    Case { code: &[25, 0], regs: Regs { s: 4093, b: 4094, ..REGS }, stack: &[7, 4096, 1], ..CASE },
    Case { code: &[26, 1, 0], ..CASE },
    Case { code: &[26, 2, 2], regs: Regs { s: 4093, ..REGS }, stack: &[1, 2, 3], ..CASE },
    Case { code: &[26, 2, 4], regs: Regs { s: 4093, ..REGS }, stack: &[1, 2, 3], ..CASE },
    Case { code: &[26, 3, 0], ..CASE },
    Case { code: &[26, 1, 0], holding: true, ..CASE },
    Case { code: &[26, 3, 1], holding: true, ..CASE },
    Case { code: &[26, 1], ..CASE },
    Case { code: &[26, 0, 65535], regs: Regs { s: 4095, ..REGS }, stack: &[1], ..CASE },
    Case { code: &[26, 1, 0], regs: JOB, ..CASE },
    Case { code: &[27], ..CASE },
    Case { code: &[27], regs: JOB, ..CASE },
    Case { code: &[27], regs: Regs { s: 3998, ..JOB }, stack: &[4, 5], ..CASE },
    Case { code: &[27], regs: Regs { reason: 20, ..JOB }, ..CASE },
    Case { code: &[27], regs: Regs { s: 2060, b: 2060, c: 2060, saved_s: 2060, ..JOB }, ..CASE },
    Case { code: &[27], regs: Regs { s: 2061, b: 2061, c: 2061, saved_s: 2061, ..JOB }, ..CASE },
    Case { code: &[28, 0], ..CASE },
    Case { code: &[28, 11], ..CASE },
    Case { code: &[28, 12], ..CASE },
    Case { code: &[28, 65535], ..CASE },
    Case { code: &[28], ..CASE },
    Case { code: &[28, 3], regs: JOB, ..CASE },
];

// At the edges of the stack and the code, in a job, and codes that are no operation.
#[rattlefmt::skip]
static REST: [Case; 36] = [
    Case { code: &[2], regs: Regs { s: 3999, ..JOB }, stack: &[2060], word: Some((2060, 12)), ..CASE },
    Case { code: &[2], regs: Regs { s: 3999, ..JOB }, stack: &[2059], ..CASE },
    Case { code: &[2], regs: Regs { s: 3999, p: 2, ..JOB }, stack: &[4001], word: Some((4001, 3)), ..CASE },
    Case { code: &[2], regs: Regs { s: 3999, p: 2, ..JOB }, stack: &[4002], ..CASE },
    Case { code: &[2], regs: Regs { s: 3999, ..JOB }, stack: &[5], word: Some((5, 9)), ..CASE },
    Case { code: &[3], regs: Regs { s: 3998, ..JOB }, stack: &[8, 3999], ..CASE },
    Case { code: &[3], regs: Regs { s: 3998, ..JOB }, stack: &[8, 4000], ..CASE },
    Case { code: &[3], regs: Regs { s: 3998, p: 1, ..JOB }, stack: &[8, 4000], ..CASE },
    Case { code: &[3], regs: Regs { s: 3998, ..JOB }, stack: &[8, 100], ..CASE },
    Case { code: &[12], regs: Regs { s: 3998, ..JOB }, stack: &[1, 32767], ..CASE },
    Case { code: &[15], regs: Regs { s: 3998, ..JOB }, stack: &[0, 7], ..CASE },
    Case { code: &[40], regs: JOB, ..CASE },
    Case { code: &[12], regs: Regs { s: 3999, ..JOB }, stack: &[1], ..CASE },
    Case { code: &[1, 5], regs: Regs { s: 2060, b: 2069, ..JOB }, ..CASE },
    Case { code: &[1, 5], regs: Regs { s: 2060, b: 2060, c: 2060, saved_s: 2060, ..JOB }, ..CASE },
    Case { code: &[7, 1, 10], regs: Regs { s: 3999, reason: 20, ..JOB }, stack: &[11], ..CASE },
    Case { code: &[21, 0], regs: Regs { s: 3999, reason: 20, ..JOB }, ..CASE },
    Case { code: &[21, 0], regs: Regs { s: 3999, reason: 20, ..JOB }, stack: &[1], ..CASE },
    Case { code: &[21], regs: Regs { reason: 255, ..JOB }, ..CASE },
    Case { code: &[21, 9], regs: Regs { s: 3999, reason: 16, ..JOB }, ..CASE },
    Case { code: &[21, 0], regs: Regs { s: 3999, ..JOB }, ..CASE },
    Case { code: &[20, 0], regs: Regs { reason: 20, ..JOB }, ..CASE },
    Case { code: &[5], regs: Regs { s: 3999, reason: 20, ..JOB }, stack: &[1], ..CASE },
    Case { code: &[21, 0], regs: Regs { s: 2060, b: 2060, c: 2060, saved_s: 2060, reason: 20, ..JOB }, ..CASE },
    Case { code: &[29], ..CASE },
    Case { code: &[65535], ..CASE },
    Case { code: &[32768], ..CASE },
    Case { code: &[5, 5], regs: Regs { address: 2, ..REGS }, ..CASE },
    Case { code: &[5], regs: Regs { address: 1, ..REGS }, ..CASE },
    Case { code: &[5], regs: Regs { address: 1, ..JOB }, ..CASE },
    Case { code: &[5], regs: Regs { address: 2, s: 4095, ..REGS }, stack: &[1], ..CASE },
    Case { code: &[5], regs: Regs { s: 2050, b: 2051, ..REGS }, stack: &[1], ..CASE },
    Case { code: &[5], regs: Regs { s: 4095, c: 4095, ..REGS }, stack: &[1], ..CASE },
    Case { code: &[5], regs: Regs { s: 4095, reason: 20, ..REGS }, stack: &[1], ..CASE },
    Case { code: &[5], regs: Regs { s: 3999, reason: 15, ..JOB }, stack: &[1], ..CASE },
    Case { code: &[13], regs: Regs { s: 4094, ..REGS }, stack: &[1, 32768], ..CASE },
];

// The words that the process reaches, by their addresses: the common store, then its own part.
fn words_of(case: &Case) -> [u16; 4096] {
    let mut words = [0; 4096];
    for (a, w) in (case.regs.s..).zip(case.stack) {
        if let Some(word) = words.get_mut(usize::from(a)) {
            *word = *w;
        }
    }
    if let Some((a, w)) = case.word
        && let Some(word) = words.get_mut(usize::from(a))
    {
        *word = w;
    }
    words
}

fn say_end(rt: &impl Print, end: End) -> io::Result<()> {
    match end {
        End::Budget => print!(rt; "went on"),
        End::Job => print!(rt; "job ended"),
        End::Unfit => print!(rt; "unfit"),
        End::Fault(fault) => print!(rt; "fault {}", u16::from(fault)),
        End::Call(k) => print!(rt; "call {k}"),
    }
}

fn say_registers(rt: &impl Print, r: Regs) -> io::Result<()> {
    print!(rt; "; {} {} {} {} {}", r.address, r.line, r.s, r.b, r.c)?;
    print!(rt;
        " {} {} {} {} {} {};",
        u16::from(r.in_job),
        r.saved_s,
        r.saved_b,
        r.saved_address,
        r.p,
        r.reason
    )
}

fn run_case(rt: &impl Print, case: &Case) -> io::Result<()> {
    let before = words_of(case);
    let mut after = before;
    let (common, own) = after.split_at_mut(Machine::COMMON);
    let x = engine::run_burst(case.code, LIMIT, case.holding, case.regs, 1, common, own);
    say_end(rt, x.end)?;
    print!(rt; " {}", x.count)?;
    say_registers(rt, x.regs)?;
    // each word that has changed, with its address
    for (a, (old, new)) in before.iter().zip(&after).enumerate() {
        if old != new {
            print!(rt; " {a}:{new}")?;
        }
    }
    println!(rt)
}

fn run_cases(rt: &impl Print, cases: &[Case]) -> io::Result<()> {
    for case in cases {
        run_case(rt, case)?;
    }
    Ok(())
}

fn main(rt: HostRuntime) -> io::Result<()> {
    run_cases(&rt, &WORDS)?;
    run_cases(&rt, &LOGIC)?;
    run_cases(&rt, &SUMS)?;
    run_cases(&rt, &ORDERS)?;
    run_cases(&rt, &JUMPS)?;
    run_cases(&rt, &CALLS)?;
    run_cases(&rt, &REST)
}

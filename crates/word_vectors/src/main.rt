// Runs the arithmetic of words on 210 edge cases. A line has the code, its operands, and the word or the fault.
#![tactic(auto)]

use std::io;
use word::Fault;

// NOT and NEG, and codes with no such operation, each on 10 words.
const UNARY: [u16; 5] = [8, 11, 7, 20, 65535];

const WORDS: [u16; 10] = [0, 1, 65535, 2, 65534, 10, 32767, 32768, 4095, 4096];

// AND, OR, and ADD to GREATER, and codes with no such operation, each on 10 pairs.
const BINARY: [u16; 13] = [9, 10, 12, 13, 14, 15, 16, 17, 18, 19, 7, 20, 65535];

const PAIRS: [[u16; 2]; 10] = [
    [0, 0],
    [32767, 1],
    [32768, 65535],
    [65529, 3],
    [7, 65533],
    [65529, 65533],
    [7, 0],
    [32768, 1],
    [182, 182],
    [65280, 128],
];

// LOCALADDR: the frame's mark and the distance.
const LOCALS: [[u16; 2]; 10] = [
    [4096, 0],
    [4096, 65535],
    [2048, 63488],
    [0, 65535],
    [0, 32768],
    [0, 32767],
    [1, 32767],
    [32768, 32768],
    [65535, 0],
    [32767, 1],
];

// RANGE: the word, its least and its most.
const RANGES: [[u16; 3]; 10] = [
    [10, 1, 10],
    [11, 1, 10],
    [1, 1, 10],
    [0, 1, 10],
    [65535, 65533, 3],
    [65532, 65533, 3],
    [4, 65533, 3],
    [32768, 32768, 32767],
    [0, 1, 65535],
    [32768, 0, 32767],
];

// INDEX: the address, the index, its least and its most, and the length.
const INDEXES: [[u16; 5]; 10] = [
    [2048, 10, 1, 10, 2],
    [2048, 11, 1, 10, 2],
    [0, 2, 1, 2, 4095],
    [0, 2, 1, 2, 4096],
    [4096, 1, 1, 10, 5],
    [65535, 2, 1, 2, 1],
    [65535, 1, 1, 2, 1],
    [32768, 32767, 32768, 32767, 65535],
    [0, 65535, 65533, 3, 10],
    [4096, 0, 1, 10, 1],
];

fn say(rt: &impl Print, operands: &[u16], answer: Result<u16, Fault>) -> io::Result<()> {
    for x in operands {
        print!(rt; "{x} ")?;
    }
    match answer {
        Ok(word) => println!(rt; "word {word}"),
        Err(fault) => println!(rt; "fault {}", u16::from(fault)),
    }
}

fn main(rt: HostRuntime) -> io::Result<()> {
    for code in UNARY {
        for a in WORDS {
            say(&rt, &[code, a], word::unary(code, a))?;
        }
    }
    for code in BINARY {
        for [a, b] in PAIRS {
            say(&rt, &[code, a, b], word::binary(code, a, b))?;
        }
    }
    for [b, d] in LOCALS {
        say(&rt, &[4, b, d], word::local_addr(b, d))?;
    }
    for [i, min, max] in RANGES {
        say(&rt, &[7, i, min, max], word::range(i, min, max))?;
    }
    for [address, i, min, max, len] in INDEXES {
        let answer = word::index(address, i, min, max, len);
        say(&rt, &[6, address, i, min, max, len], answer)?;
    }
    Ok(())
}

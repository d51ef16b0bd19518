// Runs reading and writing on the whole example of document 01, and on images that break one or two of its rules.
#![tactic(auto)]

use image::{Header, Refusal};
use std::io;

// A case of reading: so many bytes of the example, room for so many words of code, and which words of the example become what.
struct Read {
    bytes: usize,
    room: usize,
    changes: &'static [(usize, u16)],
}

#[rattlefmt::skip]
static READS: [Read; 33] = [
    Read { bytes: 1024, room: 2, changes: &[] },
    Read { bytes: 1024, room: 4, changes: &[] },
    Read { bytes: 1024, room: 1, changes: &[] },
    Read { bytes: 1024, room: 0, changes: &[] },
    Read { bytes: 0, room: 2, changes: &[] },
    Read { bytes: 511, room: 2, changes: &[] },
    Read { bytes: 513, room: 2, changes: &[] },
    Read { bytes: 1023, room: 2, changes: &[] },
    Read { bytes: 1024, room: 2, changes: &[(255, 65530)] },
    Read { bytes: 1024, room: 2, changes: &[(511, 65503)] },
    Read { bytes: 1024, room: 2, changes: &[(255, 1), (511, 1)] },
    Read { bytes: 1024, room: 2, changes: &[(256, 2), (511, 65501)] },
    Read { bytes: 1024, room: 2, changes: &[(0, 1), (255, 65530)] },
    Read { bytes: 1024, room: 2, changes: &[(1, 0), (255, 65532)] },
    Read { bytes: 1024, room: 2, changes: &[(1, 2), (255, 65530)] },
    Read { bytes: 1024, room: 2, changes: &[(2, 0), (255, 65533)] },
    Read { bytes: 1024, room: 2, changes: &[(2, 16257), (255, 49276)] },
    Read { bytes: 1024, room: 2, changes: &[(2, 65535), (255, 65534)] },
    Read { bytes: 1024, room: 2, changes: &[(3, 32), (255, 65500)] },
    Read { bytes: 1024, room: 2, changes: &[(3, 31), (255, 65501)] },
    Read { bytes: 1024, room: 2, changes: &[(4, 1025), (255, 64506)] },
    Read { bytes: 1024, room: 2, changes: &[(4, 1024), (255, 64507)] },
    Read { bytes: 1024, room: 2, changes: &[(5, 1), (255, 65530)] },
    Read { bytes: 1024, room: 2, changes: &[(254, 9), (255, 65522)] },
    Read { bytes: 1536, room: 2, changes: &[] },
    Read { bytes: 512, room: 2, changes: &[] },
    Read { bytes: 1024, room: 2, changes: &[(259, 1), (511, 65501)] },
    Read { bytes: 1024, room: 2, changes: &[(510, 1), (511, 65501)] },
    Read { bytes: 1024, room: 2, changes: &[(1, 7), (255, 65525), (300, 1), (511, 65501)] },
    Read { bytes: 1536, room: 2, changes: &[(767, 0)] },
    Read { bytes: 1024, room: 0, changes: &[(300, 1), (511, 65501)] },
    Read { bytes: 1023, room: 2, changes: &[(255, 0)] },
    Read { bytes: 1024, room: 2, changes: &[(1, 7), (511, 0)] },
];

// A case of writing: the header's edition, n, devices and V, so many words of code, and room for so many bytes.
struct Write {
    header: [u16; 4],
    words: usize,
    room: usize,
}

#[rattlefmt::skip]
static WRITES: [Write; 13] = [
    Write { header: [1, 2, 1, 0], words: 2, room: 1024 },
    Write { header: [1, 255, 31, 1024], words: 255, room: 1537 },
    Write { header: [0, 2, 1, 0], words: 2, room: 1024 },
    Write { header: [2, 2, 1, 0], words: 2, room: 1024 },
    Write { header: [1, 0, 1, 0], words: 0, room: 1024 },
    Write { header: [1, 16257, 1, 0], words: 2, room: 1024 },
    Write { header: [1, 2, 32, 0], words: 2, room: 1024 },
    Write { header: [1, 2, 1, 1025], words: 2, room: 1024 },
    Write { header: [1, 2, 1, 0], words: 3, room: 1024 },
    Write { header: [1, 2, 1, 0], words: 1, room: 1024 },
    Write { header: [1, 2, 1, 0], words: 2, room: 1023 },
    Write { header: [1, 2, 1, 0], words: 1, room: 0 },
    Write { header: [1, 2, 64, 0], words: 1, room: 0 },
];

fn say_refusal(rt: &impl Print, refusal: Refusal) -> io::Result<()> {
    print!(rt; " refused {}", u16::from(refusal))?;
    if let Refusal::Block(number) = refusal {
        print!(rt; " {number}")?;
    }
    Ok(())
}

// Word k of the bytes becomes w.
fn poke(bytes: &mut [u8; 1536], k: usize, w: u16) {
    if let Some(word) = bytes.chunks_exact_mut(2).nth(k) {
        word.copy_from_slice(&w.to_le_bytes());
    }
}

// Document 01's whole example, and a third block that is good in itself, with changes.
fn example(changes: &[(usize, u16)]) -> [u8; 1536] {
    let words = [
        (1, 1),
        (2, 2),
        (3, 1),
        (255, 65531),
        (256, 1),
        (257, 28),
        (258, 4),
        (511, 65502),
        (512, 2),
        (767, 65533),
    ];
    let mut bytes = [0; 1536];
    for (k, w) in words.iter().chain(changes) {
        poke(&mut bytes, *k, *w);
    }
    bytes
}

fn say_header(rt: &impl Print, header: Header) -> io::Result<()> {
    let Header {
        edition,
        length,
        devices,
        variables,
    } = header;
    print!(rt; " accepted {edition} {length} {devices} {variables}")
}

fn say_code(rt: &impl Print, code: &[u16]) -> io::Result<()> {
    print!(rt; "; code")?;
    for word in code {
        print!(rt; " {word}")?;
    }
    println!(rt)
}

fn read_case(rt: &impl Print, case: &Read) -> io::Result<()> {
    let bytes = example(case.changes);
    let mut code = [7; 4];
    if let Some(image) = bytes.get(..case.bytes)
        && let Some(room) = code.get_mut(..case.room)
    {
        print!(rt; "read")?;
        match image::read(image, room) {
            Ok(header) => say_header(rt, header)?,
            Err(refusal) => say_refusal(rt, refusal)?,
        }
        say_code(rt, &code)?;
    }
    Ok(())
}

// The code of the whole example, and more behind it for a longer program.
fn program() -> [u16; 256] {
    let mut code = [0; 256];
    for (k, word) in code.iter_mut().enumerate() {
        *word = (3 * k + 1) as u16;
    }
    code[0] = 28;
    code[1] = 4;
    code
}

// 32 bytes to a line.
fn say_out(rt: &impl Print, out: &[u8]) -> io::Result<()> {
    if out.iter().all(|byte| *byte == 170) {
        return println!(rt; "untouched");
    }
    for line in out.chunks(32) {
        for byte in line {
            print!(rt; "{byte:02x}")?;
        }
        println!(rt)?;
    }
    Ok(())
}

fn write_case(rt: &impl Print, case: &Write) -> io::Result<()> {
    let [edition, length, devices, variables] = case.header;
    let header = Header {
        edition,
        length,
        devices,
        variables,
    };
    let program = program();
    let mut out = [170; 1568];
    if let Some(code) = program.get(..case.words)
        && let Some(room) = out.get_mut(..case.room)
    {
        print!(rt; "write")?;
        match image::write(header, code, room) {
            Ok(n) => print!(rt; " written {n}")?,
            Err(refusal) => say_refusal(rt, refusal)?,
        }
        println!(rt)?;
        say_out(rt, &out)?;
    }
    Ok(())
}

fn main(rt: HostRuntime) -> io::Result<()> {
    for case in &READS {
        read_case(&rt, case)?;
    }
    for case in &WRITES {
        write_case(&rt, case)?;
    }
    Ok(())
}

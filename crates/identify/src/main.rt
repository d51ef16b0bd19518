// Says of each file that it is given what image it is: accepted, with its header, or refused, and why.
#![tactic(auto)]

use image::Header;
use shown::Line;
use std::env::FillError;
use std::io;
use std::rt::{Env, Files};

fn say_header(rt: &impl Print, header: Header) -> io::Result<()> {
    println!(rt; "accepted")?;
    println!(rt; "  edition   {}", header.edition)?;
    println!(rt; "  code      {} words", header.length)?;
    devices(header.devices).say(rt)?;
    println!(rt; "  variables {}", header.variables)
}

// The names of the present devices, bits 0 to 4: d is a device's number.
fn devices(bits: u16) -> Line {
    let mut line = Line::new().put(b"  devices  ");
    if bits == 0 {
        return line.put(b" none");
    }
    for d in 0..5 {
        if bits & 1 << d != 0 {
            line = line.put(b" ").device(d);
        }
    }
    line
}

fn examine<R: Files + Print + Eprint>(rt: &R, path: &[u8]) -> io::Result<()> {
    let mut bytes = [0; 65536];
    let Some(length) = shown::read_image(rt, path, &mut bytes)? else {
        return Ok(());
    };
    rt.write_all(path)?;
    print!(rt; ": ")?;
    match image::examine(&bytes[..length]) {
        Ok(header) => say_header(rt, header),
        Err(refusal) => shown::say_refusal(rt, refusal),
    }
}

fn main(rt: HostRuntime) -> io::Result<()> {
    // no path is longer; an argument is asked for by its number: `env::args` copies all to the heap and fails at one that is not UTF-8, before
    // an image is examined
    let mut path = [0; 4096];
    for i in 1..usize::MAX {
        match rt.arg(i, &mut path) {
            Ok(n) => examine(&rt, &path[..n])?,
            Err(FillError::TooLong) => eprintln!(rt; "file name: File name too long")?,
            Err(FillError::NotPresent) => {
                if i == 1 {
                    println!(rt; "usage: identify FILE..")?;
                    println!(rt;
                        "Says what image each file is: accepted, with its header, or refused, and why."
                    )?;
                }
                break;
            }
        }
    }
    Ok(())
}

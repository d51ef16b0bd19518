// An image's file, read whole.
ghost use Rattle.std.specs.Prelude.{◌≡◌, ◌≤◌, length, IfOk, IfSome, OnErr};

use std::io::{Read, Write};
use std::rt::Files;
use std::{fs, io};

// Reads the whole file, and returns how many bytes it has, or nothing where it could not be read whole; one more read tells its end
// from a failure and from a file that is too large. What is wrong is said; that it could not be said is the only error.
pub fn read_image<R: Files + Print + Eprint>(
    rt: &R,
    path: &[u8],
    bytes: &mut [u8; 65536],
) -> io::Result<Option<usize>>
    ensures read { IfOk result (λ read. IfSome read (λ n. n ≤ length bytes.new)) }
    ensures unsaid { OnErr result (length bytes.new ≡ length bytes.old) }
{
    let mut file = match open(rt, path) {
        Ok(file) => file,
        Err(error) => {
            fail(rt, path, &error)?;
            return Ok(None);
        }
    };
    let length = read_full(&mut file, bytes);
    if is_at_end(rt, path, &mut file)? {
        Ok(Some(length))
    } else {
        Ok(None)
    }
}

// A file's name is UTF-8 here, as std's are.
fn open<R: Files>(rt: &R, path: &[u8]) -> io::Result<R::File> {
    match str::from_utf8(path) {
        Ok(name) => fs::open(rt, name),
        Err(_) => Err(io::Error::from(io::ErrorKind::InvalidFilename)),
    }
}

// Reads until the buffer is full, the file ends or a read fails, and returns how many bytes stand at the buffer's start: a read gives
// as many as it will.
fn read_full<F: Read>(file: &mut F, bytes: &mut [u8]) -> usize
    ensures { result ≤ length bytes.new }
{
    let mut done = 0;
    while let Ok(n @ 1..) = file.read(&mut bytes[done..]) {
        done += n;
    }
    done
}

fn is_at_end<R: Print + Eprint, F: Read>(rt: &R, path: &[u8], file: &mut F) -> io::Result<bool> {
    match file.read(&mut [0]) {
        Ok(0) => Ok(true),
        Ok(_) => {
            rt.write_all(path)?;
            println!(rt; ": too large: over 65536 bytes, and no image has more than 33280")?;
            Ok(false)
        }
        Err(error) => {
            fail(rt, path, &error)?;
            Ok(false)
        }
    }
}

// Says on the standard error what is wrong with a file, in the system's words, without the number that std puts behind them.
fn fail(rt: &impl Eprint, path: &[u8], error: &io::Error) -> io::Result<()> {
    let name = str::from_utf8(path).unwrap_or("a name that is not UTF-8");
    let mut text = [0; 256];
    let mut cursor = io::Cursor::new(&mut text[..]);
    // words that are too long for the text are cut, which is no error
    write!(cursor, "{error}").unwrap_or(());
    let said = text.split(|b| *b == 0).next().unwrap_or(b"");
    let words = str::from_utf8(said).unwrap_or("");
    let words = words
        .split_once(" (os error ")
        .map_or(words, |(before, _)| before);
    eprintln!(rt; "{name}: {words}")
}

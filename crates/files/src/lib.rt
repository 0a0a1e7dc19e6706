// What the programs for people share of files: one that an argument names is read, and the answer is written.
#![tactic(auto)]

ghost use Rattle.std.specs.Prelude.{length};
ghost use Rattle.std.specs.Io.{WritesAtMost};
ghost use Rattle.files.specs.Loads.{Within};

use std::env::FillError;
use std::fs::File;
use std::io;
use std::io::{Read, Write};
use std::rt::{Env, Files};

// That a file could not be read. Standard error has been told why.
#[derive(Clone, Copy)]
pub struct Unreadable;

// How many bytes of a file came.
pub type Loaded = Result<usize, Unreadable>;

// The system's numbers of three errors: a name that is missing, one that is too long, and one that is no text. They stay numbers: the words of an `io::ErrorKind` are others, and what is
// printed stays as it was.
const MISSING: i32 = 22;

const TOO_LONG: i32 = 36;

const NO_TEXT: i32 = 84;

// What an error says, without its number, in a text that is lent.
fn words_of<'a>(error: &io::Error, text: &'a mut [u8; 320]) -> &'a [u8] {
    let mut rest = &mut text[..];
    let _ = write!(rest, "{error}");
    let end = 320 - rest.len().min(320);
    let said = &text[..end];
    match std::str::from_utf8(said) {
        Ok(words) => words
            .split_once(" (os error ")
            .map_or(said, |(front, _)| front.as_bytes()),
        Err(_) => said,
    }
}

// Writes a line to standard error: what failed, a colon and what the error says.
fn fail(err: &impl Print, what: &[u8], error: &io::Error) {
    let mut text = [0u8; 320];
    let words = words_of(error, &mut text);
    host::write_all(err, what);
    host::write_all(err, b": ");
    host::write_all(err, words);
    host::write_all(err, b"\n");
}

// Reads until the buffer is full or the file ends. A read brings as many bytes as it likes, so that no `for` counts them. `host::read_full` takes a read that fails for the end and says how
// much came before; here its error is handed on.
fn fill(file: &mut impl Read, buf: &mut [u8]) -> io::Result<usize>
    ensures { WritesAtMost result buf.new }
{
    let mut done: usize = 0;
    while done < buf.len() {
        let n = file.read(&mut buf[done..])?;
        if n == 0 {
            break;
        }
        done += n;
    }
    Ok(done)
}

// The file of that name: its first bytes, up to the buffer's length. The library opens no file by a name that is not UTF-8.
fn read_named(rt: &impl Files, name: &[u8], buf: &mut [u8]) -> io::Result<usize>
    ensures { WritesAtMost result buf.new }
{
    let Ok(path) = std::str::from_utf8(name) else {
        return Err(io::Error::from_raw_os_error(NO_TEXT));
    };
    let mut file = File::open(rt, path)?;
    fill(&mut file, buf)
}

// The name that the program's argument gives, in a path that is lent.
fn name_in<'a>(rt: &impl Env, arg: usize, path: &'a mut [u8; 4096]) -> io::Result<&'a [u8]> {
    match rt.arg(arg, path) {
        Ok(n) => Ok(&path[..n]),
        Err(FillError::TooLong) => Err(io::Error::from_raw_os_error(TOO_LONG)),
        Err(FillError::NotPresent) => Err(io::Error::from_raw_os_error(MISSING)),
    }
}

// The file that the program's argument names: its first bytes, up to the buffer's length. Where it cannot be read, a line on standard error says why.
pub fn load(rt: &(impl Files + Env), err: &impl Print, arg: usize, buf: &mut [u8]) -> Loaded
    ensures { Within result (length buf.new) }
{
    let mut path = [0u8; 4096];
    let (name, read) = match name_in(rt, arg, &mut path) {
        Ok(name) => (name, read_named(rt, name, buf)),
        Err(error) => (&b"the name of a file"[..], Err(error)),
    };
    read.map_err(|error| {
        fail(err, name, &error);
        Unreadable
    })
}

// Writes the answer, in one call where the system takes it whole. It gives nothing back, so there is nothing to ensure.
pub fn show(rt: &impl Print, err: &impl Print, answer: &[u8])
    ensures { Unit {0} }
{
    if let Err(error) = rt.write_all(answer) {
        fail(err, b"standard output", &error);
    }
}

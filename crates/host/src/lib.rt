// What the programs share of input and output, over the standard library. A read that fails counts as one that brings nothing, and of a write it is answered whether it took all.
#![tactic(auto)]

ghost use Rattle.std.specs.Prelude.{◌≡◌, ◌≤◌, ◌<◌, length, take, IfSome};

use std::env::FillError;
use std::io::Read;
use std::rt::Env;

// 65,536 zeros, for a loop that moves much data and would spend its time on small reads.
pub fn large_buffer() -> [u8; 65536]
    ensures { 65536 ≡ length result }
{
    [0; 65536]
}

// One read: how many bytes came to the start of buf, 0 at the end or where the read failed.
pub fn read_some(input: &mut impl Read, buf: &mut [u8]) -> usize
    ensures in_bounds { result ≤ length buf.new }
    ensures front { result ≡ length (take result buf.new) }
{
    input.read(buf).unwrap_or(0)
}

// Reads until buf is full, the input ends or a read fails; how many bytes came to the start of buf. On an empty buf nothing is read.
pub fn read_full(input: &mut impl Read, buf: &mut [u8]) -> usize
    ensures in_bounds { result ≤ length buf.new }
    ensures front { result ≡ length (take result buf.new) }
{
    // Each read says how far it came, so that no `for` has the places.
    let mut done = 0;
    while done < buf.len() {
        let n = read_some(input, &mut buf[done..]);
        if n == 0 {
            break;
        }
        done += n;
    }
    done
}

// Writes all of the bytes, and answers true; false where a write fails, and then some may have been written. Of no bytes there is no write. What it answers is the
// system's to say, so there is nothing to ensure.
// A bool and no Result, here and below: no caller asks why, each goes on or stops.
pub fn write_all(to: &impl Print, bytes: &[u8]) -> bool
    ensures { Unit {0} }
{
    to.write_all(bytes).is_ok()
}

// Writes the number in decimal, with no line end, and answers as write_all does.
pub fn print_decimal(to: &impl Print, n: u64) -> bool
    ensures { Unit {0} }
{
    to.print(n).is_ok()
}

// Writes the number in decimal and the words behind it. The words are written where the number could not be, too; it answers whether both were.
pub fn print_count(to: &impl Print, n: u64, words: &[u8]) -> bool
    ensures { Unit {0} }
{
    let is_printed = print_decimal(to, n);
    write_all(to, words) && is_printed
}

// How many arguments the program was started with, its own name among them: the system's to say, too.
pub fn arg_count(rt: &impl Env) -> usize
    ensures { Unit {0} }
{
    let mut start = [0u8; 1];
    for i in 0..usize::MAX {
        if let Err(FillError::NotPresent) = rt.arg(i, &mut start) {
            return i;
        }
    }
    usize::MAX
}

// What takes an input in parts, and says of each whether it will have more.
pub trait Sink {
    fn take(&mut self, part: &[u8]) -> bool;
}

// Hands the input on to its end: whole records of eight bytes, once half of buf is full of them and at the end, which is where nothing came. Answers how many bytes were left over, that make no
// whole record; None where the sink would have no more. Of what comes, the rest waits at the start of buf and is read on behind it, so that a buf of 16 bytes or more is never full.
pub fn hand_on(input: &mut impl Read, buf: &mut [u8], sink: &mut impl Sink) -> Option<usize>
    ensures { IfSome result (λ left. left < 8) }
{
    let mut waiting = 0;
    // No input outlives so many reads.
    for _turn in 0..u64::MAX {
        let got = read_some(input, &mut buf[waiting..]);
        waiting += got;
        if got == 0 || buf.len() / 2 <= waiting {
            let left = waiting % 8;
            let whole = waiting - left;
            if !sink.take(&buf[..whole]) {
                return None;
            }
            if got == 0 {
                return Some(left);
            }
            buf.copy_within(whole..waiting, 0);
            waiting = left;
        }
    }
    None
}

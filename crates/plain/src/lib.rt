// What the programs for people share of words: the lines of an answer, put into a lent list. Each function answers the place past what it put, as those of `text` do, which promise of each piece that it is
// put whole or not at all; a `write!` into the list would promise nothing of its bytes, and fill it with a part of the piece for which there is no room.
#![tactic(auto)]

ghost use Rattle.plain.specs.Stays.{Stays};

use codes::Told;
use logs::Fault;

// A number with words before and after it.
pub fn put_counted(before: &[u8], number: u64, after: &[u8], out: &mut [u8], at: usize) -> usize
    ensures { Stays at out.old out.new result }
{
    let a = text::put_text(before, out, at);
    let b = text::put_number(number, out, a);
    text::put_text(after, out, b)
}

// Numbers, a line for each.
pub fn put_numbers(numbers: &[u32], out: &mut [u8], at: usize) -> usize
    ensures { Stays at out.old out.new result }
{
    let mut to = at;
    for number in numbers {
        to = put_counted(b"", u64::from(*number), b"\n", out, to);
    }
    to
}

// The first line of an answer that accepts: how many jobs are kept.
pub fn put_accepted(jobs: u64, out: &mut [u8], at: usize) -> usize
    ensures { Stays at out.old out.new result }
{
    put_counted(b"accepted ", jobs, b"\n", out, at)
}

// The first line of an answer that refuses, for any code and place.
pub fn put_refused(code: u32, place: u64, out: &mut [u8], at: usize) -> usize
    ensures { Stays at out.old out.new result }
{
    let a = put_counted(b"refused ", u64::from(code), b" ", out, at);
    put_counted(b"", place, b"\n", out, a)
}

// What is wrong with a log, in words, for the codes 11 to 14. For any other code nothing is put: the code stays a number, as this function takes any.
pub fn put_fault(code: u32, place: u64, out: &mut [u8], at: usize) -> usize
    ensures { Stays at out.old out.new result }
{
    match code {
        11 => text::put_text(
            b"the log is no whole number of records of 8 bytes, or has more than 4096 of them\n",
            out,
            at,
        ),
        12 => put_counted(
            b"record ",
            place,
            b" has a wrong kind, a byte 1 that is not 0, a cell above 255, or a cell that must be 0 and is not\n",
            out,
            at,
        ),
        13 => put_counted(
            b"record ",
            place,
            b" is out of turn: an open that is not above all numbers opened before, a job that is not open there, or an abandon after its own write or add\n",
            out,
            at,
        ),
        14 => put_counted(b"record ", place, b" opens the 513th job\n", out, at),
        _ => at,
    }
}

// The first line of a refusal that is told by its code and its place.
pub fn put_told(refusal: impl Told, out: &mut [u8], at: usize) -> usize
    ensures { Stays at out.old out.new result }
{
    put_refused(refusal.code(), refusal.place() as u64, out, at)
}

// What is wrong with a log, in words.
pub fn put_log_fault(fault: Fault, out: &mut [u8], at: usize) -> usize
    ensures { Stays at out.old out.new result }
{
    put_fault(fault.code(), fault.place() as u64, out, at)
}

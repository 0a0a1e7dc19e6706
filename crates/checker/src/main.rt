// The checker: the verdict on a log and on a proposed order of its jobs, each in a file.
#![tactic(auto)]

ghost use Rattle.std.specs.Prelude.{◌≤◌, length};
ghost use Rattle.plain.specs.Stays.{Stays};

use checks::Refusal;
use orders::Checked;
use std::rt::{Env, Files};

// How the program is called, and what it prints.
const USAGE: &[u8] = b"usage: checker LOG ORDER\n\
    Judges an order of the jobs of a log.\n\
    LOG: records of 8 bytes, at most 4096, and at most 512 opens. A record is the kind (1 open, 2 read, 3 write, 4 end, 5 abandon, 7 add),\n\
    a byte 0, the cell (2 bytes, 0 to 255, and 0 where no cell is meant) and the job (4 bytes; of an open, the number issued).\n\
    ORDER: 32-bit job numbers. It must name each kept job once; a job is kept unless the log abandons it.\n\
    It must keep every conflicting pair of records as the log has it, and put each job before the jobs opened after its end.\n\
    Numbers stand low byte first.\n\
    The answer is 'accepted N', N the count of kept jobs, or 'refused CODE PLACE' and a line that says what is wrong.\n\
    Records and entries count from 0.\n";

// The entries, as far as there is room; how many.
// No heap: the entries have a fixed room.
fn read_entries(words: &[[u8; 4]], entries: &mut [u32]) -> usize
    ensures { result ≤ length entries.new }
{
    for (entry, word) in entries.iter_mut().zip(words) {
        *entry = u32::from_le_bytes(*word);
    }
    words.len().min(entries.len())
}

// What is wrong with the log or with an order of so many entries, in words.
fn put_reason(refusal: Refusal, entries: usize, out: &mut [u8], at: usize) -> usize
    ensures { Stays at out.old out.new result }
{
    match refusal {
        Refusal::Log(fault) => plain::put_log_fault(fault, out, at),
        Refusal::Entry(place) if place == entries => plain::put_counted(
            b"the order has length ",
            place as u64,
            b" and lacks a kept job\n",
            out,
            at,
        ),
        Refusal::Entry(place) => plain::put_counted(
            b"entry ",
            place as u64,
            b" repeats an earlier entry or names a job that is not kept\n",
            out,
            at,
        ),
        Refusal::Backward(place) => plain::put_counted(
            b"record ",
            place as u64,
            b" must come after an earlier record whose job the order puts later\n",
            out,
            at,
        ),
    }
}

// The answer in words, for an order of so many entries.
fn put_verdict(verdict: Checked, entries: usize, out: &mut [u8]) -> usize
    ensures { result ≤ length out.new }
{
    match verdict {
        Ok(kept) => plain::put_accepted(kept as u64, out, 0),
        Err(refusal) => {
            let at = plain::put_told(refusal, out, 0);
            put_reason(refusal, entries, out, at)
        }
    }
}

// The log and the order are read in full, or up to the bytes and the entry past what a log and an order can have.
fn run(rt: &(impl Files + Env + Print), err: &impl Print) {
    let mut log = [0u8; 32769];
    let mut bytes = [0u8; 2052];
    let mut entries = [0u32; 513];
    let mut out = [0u8; 512];
    let Ok(n) = files::load(rt, err, 1, &mut log) else {
        return;
    };
    let Ok(m) = files::load(rt, err, 2, &mut bytes) else {
        return;
    };
    let (words, rest) = bytes[..m].as_chunks::<4>();
    if !rest.is_empty() {
        host::write_all(
            err,
            b"ORDER: the length is no multiple of 4, and an entry has 4 bytes\n",
        );
        return;
    }
    let count = read_entries(words, &mut entries);
    let verdict = orders::check_order(&log[..n], &entries[..count]);
    let end = put_verdict(verdict, count, &mut out);
    files::show(rt, err, &out[..end]);
}

fn main(rt: HostRuntime) {
    if host::arg_count(&rt) != 3 {
        files::show(&rt, &rt.stderr(), USAGE);
        return;
    }
    run(&rt, &rt.stderr());
}

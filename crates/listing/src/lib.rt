// What the programs share that list jobs of a log, the lister and that of the morning sheet: a log in a file is read, and its list is written in words, or why there is none.
#![tactic(auto)]

ghost use Rattle.std.specs.Prelude.{◌≡◌, List, ℕ, ◌≤◌, length};
ghost use Rattle.verdicts.specs.Verdicts.{Listed as Answer};
ghost use Rattle.plain.specs.Stays.{Stays};
ghost use Rattle.lists.specs.Answers.{answered};

use lists::{Listed, Refusal};
use std::rt::{Env, Files};

// A list of the jobs of a log, and what a program says that prints it.
pub trait Listing {
    // How the program is called, and what it prints.
    const USAGE: &'static [u8];

    // The end of the line that tells of how many jobs there is no room for.
    const NO_ROOM: &'static [u8];

    // The answer for a log and the list that is lent.
    ghost listed: { List ℕ → List ℕ → Answer };

    fn list(log: &[u8], order: &mut [u32]) -> Listed
        ensures { answered result order.new ≡ listed log.now order.old };
}

// Why there is no list, in words.
fn put_reason<L: Listing>(refusal: Refusal, out: &mut [u8], at: usize) -> usize
    ensures { Stays at out.old out.new result }
{
    match refusal {
        Refusal::Log(fault) => plain::put_log_fault(fault, out, at),
        Refusal::NoOrder => text::put_text(
            b"no order keeps every conflicting pair and puts each job before those opened after its end\n",
            out,
            at,
        ),
        Refusal::Short(jobs) => {
            plain::put_counted(b"the log has ", jobs as u64, L::NO_ROOM, out, at)
        }
    }
}

// The answer in words.
fn put_answer<L: Listing>(answer: Listed, order: &[u32], out: &mut [u8]) -> usize
    ensures { result ≤ length out.new }
{
    match answer {
        Ok(jobs) => {
            let at = plain::put_accepted(jobs as u64, out, 0);
            plain::put_numbers(&order[..jobs.min(order.len())], out, at)
        }
        Err(refusal) => {
            let at = plain::put_told(refusal, out, 0);
            put_reason::<L>(refusal, out, at)
        }
    }
}

// The program: the log that its one argument names is read in full, or up to the byte past what a log can have. What it writes is the system's to take, so there is nothing to ensure.
pub fn run<L: Listing>(rt: &(impl Files + Env + Print), err: &impl Print)
    ensures { Unit {0} }
{
    if host::arg_count(rt) != 2 {
        files::show(rt, err, L::USAGE);
        return;
    }
    let mut log = [0u8; 32769];
    let mut order = [0u32; 512];
    let mut out = [0u8; 8192];
    let Ok(n) = files::load(rt, err, 1, &mut log) else {
        return;
    };
    let answer = L::list(&log[..n], &mut order);
    let end = put_answer::<L>(answer, &order, &mut out);
    files::show(rt, err, &out[..end]);
}

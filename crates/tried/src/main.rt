// The tried histories, states, logs and orders, read from standard input and run on the code. How they are written stands at the start of `stdin`.
//
// Each request is made twice, by the step by value and by the core in place. The replies are compared with the one expected, and the two next states with
// each other; where the text says what is left, with that too. A granted open is to put its job into the lowest slot that was free. The
// checker and the lister are asked of the log that was read last: code and place are compared, and of a lent list every entry.
//
// Nothing is written of what is as expected but the counts, at the end. What is not, and a line that cannot be read, is shown with its number.
#![tactic(auto)]

ghost use Rattle.std.specs.Prelude.{◌<◌, ◌≤◌, IfOk};
ghost use Rattle.std.specs.Iterator.{at_most};

use arbiter::{Answer, JobNumber, Replied, State};
use codes::Told;
use std::num::TryFromIntError;

// ---- what is expected, and what came

// A code, and the job or the place that goes with it.
// Both as a line says them: what is tried is the numbers.
#[derive(Clone, Copy, PartialEq)]
struct Reply {
    code: u32,
    number: u64,
}

impl Reply {
    // Is this the reply that is expected, and is all else so?
    fn is_so(self, want: Reply, all_else: bool) -> Result<(), Amiss> {
        if self == want && all_else {
            Ok(())
        } else {
            Err(Amiss::Came(self))
        }
    }
}

// Why a line is not so.
#[derive(Clone, Copy)]
enum Amiss {
    // It cannot be read.
    Unread,
    // This came. It may be as expected, and then the state or the list is not.
    Came(Reply),
}

impl Amiss {
    // What is shown of it. Code 99 is none: the line cannot be read.
    fn shown(self) -> Reply {
        match self {
            Amiss::Unread => Reply {
                code: 99,
                number: 0,
            },
            Amiss::Came(reply) => reply,
        }
    }
}

// ---- what is read

// A number above this cannot be read.
const LARGEST: u64 = 720_575_940_379_279_359;

// What is left of a line. Each method reads what comes next, and moves past it.
#[derive(Clone, Copy)]
struct Line<'a> {
    rest: &'a [u8],
}

impl<'a> Line<'a> {
    // The bytes before the first that is not among those.
    fn take_while<F: Fn(&u8) -> bool>(&mut self, is_among: F) -> &'a [u8]
        requires { F.IsAlwaysCallable is_among }
    {
        let all = self.rest;
        let end = all
            .iter()
            .position(|byte| !is_among(byte))
            .unwrap_or(all.len());
        let (bytes, rest) = all.split_at(end);
        self.rest = rest;
        bytes
    }

    // Letters, perhaps none.
    fn word(&mut self) -> &'a [u8] {
        self.take_while(u8::is_ascii_lowercase)
    }

    fn number<T: TryFrom<u64, Error = TryFromIntError>>(&mut self) -> Result<T, Amiss> {
        let digits = self.take_while(u8::is_ascii_digit);
        let text = std::str::from_utf8(digits).map_err(|_| Amiss::Unread)?;
        let number = text.parse::<u64>().map_err(|_| Amiss::Unread)?;
        if LARGEST < number {
            return Err(Amiss::Unread);
        }
        T::try_from(number).map_err(|_| Amiss::Unread)
    }

    fn byte(&mut self, byte: u8) -> Result<(), Amiss> {
        self.rest = self.rest.strip_prefix(&[byte]).ok_or(Amiss::Unread)?;
        Ok(())
    }

    fn end(self) -> Result<(), Amiss> {
        if self.rest.is_empty() {
            Ok(())
        } else {
            Err(Amiss::Unread)
        }
    }

    // The number past a blank.
    fn field<T: TryFrom<u64, Error = TryFromIntError>>(&mut self) -> Result<T, Amiss> {
        self.byte(b' ')?;
        self.number()
    }

    // The same below a bound.
    fn below(&mut self, bound: usize) -> Result<usize, Amiss>
        ensures { IfOk result (λ n. n < bound) }
    {
        let n = self.field::<usize>()?;
        if n < bound { Ok(n) } else { Err(Amiss::Unread) }
    }

    // The number of a kind of request, as a word or as the number.
    // A number and no enum: lines ask for kinds that there are not, too.
    fn kind(&mut self) -> Result<u8, Amiss> {
        match self.word() {
            b"" => self.number(),
            b"open" => Ok(1),
            b"read" => Ok(2),
            b"write" => Ok(3),
            b"end" => Ok(4),
            b"abandon" => Ok(5),
            b"publish" => Ok(6),
            b"add" => Ok(7),
            _ => Err(Amiss::Unread),
        }
    }

    // The step past its sign, plus or minus; where there is none, 0.
    fn step(&mut self) -> Result<u32, Amiss> {
        if self.byte(b'+').is_ok() {
            return self.number();
        }
        if self.byte(b'-').is_ok() {
            return Ok(self.number::<u32>()?.wrapping_neg());
        }
        Ok(0)
    }

    // The count past a star; where there is none, 1.
    fn count(&mut self) -> Result<u32, Amiss> {
        if self.byte(b'*').is_err() {
            return Ok(1);
        }
        let count = self.number()?;
        if count <= 4097 {
            Ok(count)
        } else {
            Err(Amiss::Unread)
        }
    }

    // The number past a blank, or the run of numbers.
    fn run(&mut self) -> Result<Run, Amiss> {
        let value = self.field()?;
        let step = self.step()?;
        let left = self.count()?;
        Ok(Run { value, step, left })
    }

    // The jobs that come next, each past a blank, put into a list from its start.
    fn jobs(&mut self, list: [u32; 600]) -> Result<Jobs, Amiss> {
        let mut jobs = Jobs { list, len: 0 };
        for _ in 0..600 {
            if !self.rest.starts_with(b" ") {
                break;
            }
            for job in self.run()? {
                jobs.push(job)?;
            }
        }
        Ok(jobs)
    }

    // What is expected, past a colon.
    fn want(&mut self) -> Result<Reply, Amiss> {
        self.byte(b':')?;
        let code = self.field::<u8>()?;
        let number = self.field::<u32>()?;
        Ok(Reply {
            code: u32::from(code),
            number: u64::from(number),
        })
    }
}

// A run of numbers: one of them, the step from it to the next, and how many are left. A step that counts down is added as well, and the sum wraps.
#[derive(Clone, Copy)]
struct Run {
    value: u32,
    step: u32,
    left: u32,
}

impl Iterator for Run {
    type Item = u32;

    ghost remaining = { λ run. at_most run.left };

    fn next(&mut self) -> Option<u32> {
        self.left = self.left.checked_sub(1)?;
        let value = self.value;
        self.value = value.wrapping_add(self.step);
        Some(value)
    }
}

// A list with jobs at its start.
#[derive(Drop)]
struct Jobs {
    list: [u32; 600],
    len: usize,
    ghost within: { len ≤ 600 },
}

impl Jobs {
    // A job that has no room is more than a line may name.
    fn push(&mut self, job: u32) -> Result<(), Amiss> {
        if self.len == 600 {
            return Err(Amiss::Unread);
        }
        self.list[self.len] = job;
        self.len += 1;
        Ok(())
    }
}

// ---- requests

// The eight bytes of a request.
// Made by hand: bytes that are no request are asked, too.
fn request(kind: u8, byte1: u8, cell: u32, job: u32) -> [u8; 8] {
    let [c0, c1, ..] = cell.to_le_bytes();
    let [j0, j1, j2, j3] = job.to_le_bytes();
    [kind, byte1, c0, c1, j0, j1, j2, j3]
}

fn told(answer: Answer) -> Reply {
    Reply {
        code: answer.code(),
        number: u64::from(answer.job().0),
    }
}

// One request in place, on the parts of a state, which are lent here and not by `State::ask`: a slip there is not in both ways.
fn in_place(state: &mut State, asked: [u8; 8]) -> Answer {
    arbiter::step_in_place(
        &mut state.next,
        &mut state.free,
        &mut state.numbers,
        &mut state.leads,
        &mut state.sets,
        &mut state.ports,
        asked,
    )
}

// Are two states the same? Field by field here, and not by the `==` of the arbiter, which is no code of this program.
fn same_state(a: &State, b: &State) -> bool {
    a.next == b.next
        && a.free == b.free
        && a.numbers == b.numbers
        && a.leads == b.leads
        && a.sets == b.sets
        && a.ports == b.ports
}

// Is the job in the lowest of the slots that were free?
fn took_lowest(free: u32, state: &State, job: u32) -> bool {
    let lowest = free.trailing_zeros() as usize;
    lowest < 32 && (state.free >> lowest) & 1 == 0 && state.numbers[lowest] == job
}

// ---- the log

// The bytes of a log, of which it has so many. It may have 4,097 records and 7 bytes.
#[derive(Drop)]
struct Log {
    bytes: [u8; 32784],
    used: usize,
    ghost within: { used ≤ 32783 },
}

impl Log {
    fn so_far(&self) -> &[u8] {
        &self.bytes[..self.used]
    }

    // Puts eight bytes at a place, where they have room. They are the log's once it ends past them.
    fn put(&mut self, at: usize, eight: [u8; 8]) -> Result<usize, Amiss> {
        if 32776 < at {
            return Err(Amiss::Unread);
        }
        self.bytes[at..at + 8].copy_from_slice(&eight);
        Ok(at + 8)
    }

    fn end_at(&mut self, end: usize) -> Result<(), Amiss> {
        if 32783 < end {
            return Err(Amiss::Unread);
        }
        self.used = end;
        Ok(())
    }

    // A record for each job of a run.
    fn record(&mut self, mut line: Line<'_>) -> Result<(), Amiss> {
        line.byte(b' ')?;
        let kind = line.kind()?;
        let byte1 = line.field()?;
        let cell = line.field::<u16>()?;
        let step = line.step()?;
        let jobs = line.run()?;
        line.end()?;
        let cells = Run {
            value: u32::from(cell),
            step,
            left: jobs.left,
        };
        let mut end = self.used;
        for (cell, job) in cells.zip(jobs) {
            end = self.put(end, request(kind, byte1, cell, job))?;
        }
        self.end_at(end)
    }

    // Some of eight bytes of zero.
    fn tail(&mut self, mut line: Line<'_>) -> Result<(), Amiss> {
        let count = line.below(8)?;
        line.end()?;
        if count == 0 {
            return Err(Amiss::Unread);
        }
        let at = self.used;
        self.put(at, [0; 8])?;
        self.end_at(at + count)
    }
}

// ---- states

// No slot open and nothing held.
fn fresh(next: u64) -> State {
    match u32::try_from(next) {
        Ok(first) => State::fresh(JobNumber(first)),
        Err(_) => State {
            next,
            ..State::fresh(JobNumber(0))
        },
    }
}

// Every slot of every port open, and every bit set.
fn full(next: u64) -> State {
    State {
        next,
        free: 0,
        numbers: [u32::MAX; 32],
        leads: [u32::MAX; 32],
        sets: [u64::MAX; 512],
        ports: [u32::MAX; 3],
    }
}

// A row for each slot of a run: open or not, the number, the slots that it leads to.
fn write_rows(state: &mut State, mut line: Line<'_>) -> Result<(), Amiss> {
    let slots = line.run()?;
    let open = line.below(2)?;
    let number = line.field()?;
    let leads = line.field()?;
    line.end()?;
    if 32 <= slots.value {
        return Err(Amiss::Unread);
    }
    for slot in slots {
        let at = (slot % 32) as usize;
        if open == 1 {
            state.free &= !(1 << at);
        } else {
            state.free |= 1 << at;
        }
        state.numbers[at] = number;
        state.leads[at] = leads;
    }
    Ok(())
}

// The cells of a run go into a set, or out where they are in.
fn write_cells(state: &mut State, mut line: Line<'_>) -> Result<(), Amiss> {
    let slot = line.below(32)?;
    let set = line.below(4)?;
    let cells = line.run()?;
    line.end()?;
    if 256 <= cells.value {
        return Err(Amiss::Unread);
    }
    for cell in cells {
        let bit = (cell % 256) as usize;
        state.sets[slot * 16 + set * 4 + bit / 64] ^= 1 << (bit % 64);
    }
    Ok(())
}

// The slots of a port.
fn write_port(state: &mut State, mut line: Line<'_>) -> Result<(), Amiss> {
    let port = line.below(3)?;
    let slots = line.field()?;
    line.end()?;
    state.ports[port] = slots;
    Ok(())
}

// ---- where a run stands

// The state; the one that is being written, which is what the next request is to leave if a line said so; the log. How many requests, states and verdicts were compared.
#[derive(Drop)]
struct Trial {
    now: State,
    written: State,
    // No Option of the state: what is written is kept before a line says that it is left, too.
    is_left: bool,
    log: Log,
    requests: u64,
    states: u64,
    verdicts: u64,
}

impl Trial {
    // Before the first line.
    fn new() -> Trial {
        Trial {
            now: fresh(0),
            written: fresh(0),
            is_left: false,
            log: Log {
                bytes: [0; 32784],
                used: 0,
            },
            requests: 0,
            states: 0,
            verdicts: 0,
        }
    }

    fn go_on_from(&mut self, state: State) {
        self.now = state;
        self.written = state;
        self.is_left = false;
    }

    // The start of a history or of a state: the next number, and a name.
    fn title<F: Fn(u64) -> State>(&mut self, mut line: Line<'_>, state_of: F) -> Result<(), Amiss>
        requires { F.IsAlwaysCallable state_of }
    {
        let next = line.field()?;
        line.byte(b' ')?;
        if line.rest.is_empty() {
            return Err(Amiss::Unread);
        }
        self.go_on_from(state_of(next));
        Ok(())
    }

    // What was written is the state. What is written from now on is what the next request is to leave.
    fn left(&mut self, mut line: Line<'_>) -> Result<(), Amiss> {
        let next = line.field()?;
        line.end()?;
        self.now = self.written;
        self.written.next = next;
        self.is_left = true;
        self.states = self.states.wrapping_add(1);
        Ok(())
    }

    // One request, both ways.
    fn request(&mut self, mut line: Line<'_>) -> Result<(), Amiss> {
        let kind = line.kind()?;
        let byte1 = line.field()?;
        let cell = line.field::<u16>()?;
        let job = line.field()?;
        let want = line.want()?;
        line.end()?;
        let asked = request(kind, byte1, u32::from(cell), job);
        let free = self.now.free;
        let (one, answer) = self.now.step(asked);
        let came = told(answer);
        let mut other = self.now;
        let is_other_way = told(in_place(&mut other, asked)) == came && same_state(&other, &one);
        let is_as_left = !self.is_left || same_state(&one, &self.written);
        // a kind is the number that the line names, an open is 1
        let is_lowest = kind != 1 || came.code != 0 || took_lowest(free, &one, answer.job().0);
        self.go_on_from(one);
        self.requests = self.requests.wrapping_add(1);
        came.is_so(want, is_other_way && is_as_left && is_lowest)
    }

    // The checker on the log and an order.
    fn order(&mut self, mut line: Line<'_>) -> Result<(), Amiss> {
        let jobs = line.jobs([0; 600])?;
        let want = line.want()?;
        line.end()?;
        self.verdicts = self.verdicts.wrapping_add(1);
        let verdict = orders::check_order(self.log.so_far(), &jobs.list[..jobs.len]);
        told_of(verdict).is_so(want, true)
    }

    // The lister on the log and a lent list, of which each entry is 4,294,967,295 less its place before it is lent.
    fn list(&mut self, mut line: Line<'_>) -> Result<(), Amiss> {
        let mut lent = [0; 600];
        let down = Run {
            value: u32::MAX,
            step: u32::MAX,
            left: 600,
        };
        for (entry, n) in lent.iter_mut().zip(down) {
            *entry = n;
        }
        let room = line.below(601)?;
        let want = line.want()?;
        let jobs = line.jobs(lent)?;
        line.end()?;
        self.verdicts = self.verdicts.wrapping_add(1);
        let listed = orders::list_order(self.log.so_far(), &mut lent[..room]);
        told_of(listed).is_so(want, lent == jobs.list)
    }

    fn line(&mut self, line: Line<'_>) -> Result<(), Amiss> {
        let mut rest = line;
        match rest.word() {
            b"history" | b"state" => self.title(rest, fresh),
            b"full" => self.title(rest, full),
            b"row" => write_rows(&mut self.written, rest),
            b"cells" => write_cells(&mut self.written, rest),
            b"port" => write_port(&mut self.written, rest),
            b"left" => self.left(rest),
            b"log" => self.log.end_at(0),
            b"record" => self.log.record(rest),
            b"tail" => self.log.tail(rest),
            b"order" => self.order(rest),
            b"list" => self.list(rest),
            _ => self.request(line),
        }
    }
}

// What a verdict is told by.
fn told_of(verdict: impl Told) -> Reply {
    Reply {
        code: verdict.code(),
        number: verdict.place() as u64,
    }
}

// ---- what is written

// The lines of a text, of which an empty one and a comment are passed over. One that is not as expected is shown: its number, the line, and the code and the number
// that came. At the end the counts, with how many were not.
fn try_lines(rt: &impl Print, text: &[u8]) {
    let mut trial = Trial::new();
    let mut differ = 0u64;
    for (line, number) in text.split(|byte| *byte == b'\n').zip(1u64..) {
        if line.is_empty() || line.starts_with(b"#") {
            continue;
        }
        if let Err(amiss) = trial.line(Line { rest: line }) {
            let came = amiss.shown();
            host::print_count(rt, number, b": ");
            host::write_all(rt, line);
            host::write_all(rt, b" IS NOT SO, found ");
            host::print_count(rt, u64::from(came.code), b" ");
            host::print_count(rt, came.number, b"\n");
            differ = differ.wrapping_add(1);
        }
    }
    if text.len() == SPACE {
        host::write_all(rt, b"TEXT TOO LONG\n");
    }
    host::print_count(rt, trial.requests, b" requests, ");
    host::print_count(rt, trial.states, b" states, ");
    host::print_count(rt, trial.verdicts, b" verdicts, ");
    host::print_count(rt, differ, b" mismatches\n");
}

// ---- inputs that end in the middle of a record

// The lines of an input: one or none for an open, and the tail line for what is no whole record.
fn tail_of(rt: &impl Print, input: &[u8]) {
    host::print_count(rt, input.len() as u64, b" bytes\n");
    let mut out = [0u8; 128];
    let mut state = State::fresh(JobNumber(1));
    if let Some(bytes) = lines::lines(0, &mut state, input, &mut out) {
        host::write_all(rt, &out[..bytes]);
    }
    let mut tail = [0u8; 32];
    let bytes = lines::tail((input.len() % 8) as u64, &mut tail);
    host::write_all(rt, &tail[..bytes]);
}

// Inputs of 0 to 8 bytes and of 11: an open and what is left over. Expected by hand, in `stdout`.
fn tails(rt: &impl Print) {
    host::write_all(
        rt,
        b"\nlines of inputs that end in the middle of a record\n",
    );
    let bytes = [1u8, 0, 0, 0, 0, 0, 0, 0, 1, 0, 0];
    for count in 0..=8usize {
        tail_of(rt, &bytes[..count]);
    }
    tail_of(rt, &bytes);
}

// So many bytes of a text are read. A text that fills them may be longer.
const SPACE: usize = 131072;

fn main(rt: HostRuntime) {
    let mut space = [0u8; SPACE];
    let count = host::read_full(&mut rt.stdin(), &mut space);
    try_lines(&rt, &space[..count]);
    tails(&rt);
}

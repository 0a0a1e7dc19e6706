// The answers by the definitions, and the arbiter's.
use crate::kept::{ASKED, FIRST, List, PUBLISH, REQUEST, place};
use crate::record::{Kind, Marks, Record, marks_of};
use arbiter::{Answer, JobNumber, Replied, State};
use cells::CellSet;

// ---- the whole history

// How many opens are there?
fn open_records(records: &[u64]) -> usize {
    let opens = records.iter().filter(|x| Record(**x).is(Kind::Open));
    opens.count()
}

// How many jobs are open?
fn open_jobs(records: &[u64]) -> usize {
    let open = records.iter().filter(|x| {
        Record(**x).is(Kind::Open) && marks_of(records, Record(**x).job()).is_open()
    });
    open.count()
}

// How many jobs of a port are open?
fn crowd(h: &List, port: u64) -> usize {
    let records = h.records();
    let open = records.iter().enumerate().filter(|(i, x)| {
        h.port_at(*i) == port
            && Record(**x).is(Kind::Open)
            && marks_of(records, Record(**x).job()).is_open()
    });
    open.count()
}

// The records of the jobs that are in by what all the records say of them.
fn only<F: Fn(Marks) -> bool>(h: &List, is_in: F) -> List
    requires { F.IsAlwaysCallable is_in }
{
    let mut log = List::empty();
    // By place: past the end of the list 0 is read, and counts as a record.
    for i in 0..h.size() {
        let record = h.at(i);
        if is_in(marks_of(h.records(), Record(record).job())) {
            log.push(record);
        }
    }
    log
}

// The log without the jobs that are still open.
pub(crate) fn closed_log(h: &List) -> List {
    only(h, |marks| marks.is_gone())
}

// ---- precedence and circle. A record that is taken out is 0, and no Option, as records stand in a list of numbers.

// Is one of these records in conflict with a later one?
fn meets(earlier: &[u64], later: Record) -> bool {
    earlier.iter().any(|x| Record(*x).conflicts_with(later))
}

// Does a job that is left precede this one?
fn waits(left: &[u64], job: u64) -> bool {
    for (b, x) in left.iter().enumerate() {
        let record = Record(*x);
        if record.job() == job && meets(&left[..b], record) {
            return true;
        }
    }
    false
}

// The first job that is left and that no job left precedes.
fn next_ready(left: &[u64]) -> Option<u64> {
    let mut opens = left.iter().filter(|x| Record(**x).is(Kind::Open));
    let open = opens.find(|open| !waits(left, Record(**open).job()))?;
    Some(Record(*open).job())
}

// The records of a job are taken out.
fn take_out(left: &mut [u64], job: u64) {
    for x in left.iter_mut() {
        if Record(*x).job() == job {
            *x = 0;
        }
    }
}

// The jobs are taken out one after the other, none before those that precede it: is one left?
fn has_circle(log: &List) -> bool {
    let mut left = *log;
    let records = left.head_mut(log.size());
    for _ in 0..512 {
        let Some(job) = next_ready(records) else {
            break;
        };
        take_out(records, job);
    }
    open_records(left.records()) != 0
}

// ---- the answers by the definitions

#[derive(Clone, Copy, PartialEq, Eq)]
pub enum Refusal {
    Malformed,
    NoCell,
    NotOpen,
    HasWritten,
    Full,
    Spent,
    Circle,
    NoPort,
    PortFull,
}

// The number of the job, or why it is refused.
pub type Reply = Result<u64, Refusal>;

// An answer as one number: its code in the low four bytes, the job in the others. The text wants any code and any job, also such as no `Reply` has.
#[derive(Clone, Copy, PartialEq, Eq)]
pub struct Said(pub u64);

impl From<Reply> for Said {
    fn from(reply: Reply) -> Said {
        let number = match reply {
            Ok(job) => job << 32,
            Err(Refusal::Malformed) => 1,
            Err(Refusal::NoCell) => 2,
            Err(Refusal::NotOpen) => 3,
            Err(Refusal::HasWritten) => 4,
            Err(Refusal::Full) => 5,
            Err(Refusal::Spent) => 6,
            Err(Refusal::Circle) => 7,
            Err(Refusal::NoPort) => 8,
            Err(Refusal::PortFull) => 9,
        };
        Said(number)
    }
}

// A request, or a publish of a job, whose cells stay where they are in the list.
#[derive(Clone, Copy)]
enum Ask {
    Request(Record),
    Publish(u64),
}

fn ask_at(h: &List, i: usize) -> Ask {
    let asked = Record(h.at(place(i, REQUEST)));
    if h.at(place(i, PUBLISH)) != 0 {
        return Ask::Publish(asked.job());
    }
    Ask::Request(asked)
}

// The publish of ask i in the log: a write of each cell, the lowest first, and the end.
fn push_published(h: &mut List, i: usize, job: u64) {
    for cell in 0..256 {
        if h.at(place(i, cell / 64)) >> (cell % 64) & 1 == 1 {
            h.push(Record::of(Kind::Write, cell as u64, job).0);
        }
    }
    h.push(Record::of(Kind::End, 0, job).0);
}

// With this publish, does the graph over the ended jobs have a circle?
fn closes(h: &List, i: usize, job: u64) -> bool {
    let mut log = *h;
    push_published(&mut log, i, job);
    has_circle(&only(&log, |marks| marks.ended))
}

fn decide_open(h: &List, port: u64) -> Reply {
    let records = h.records();
    let number = h.at(FIRST).wrapping_add(open_records(records) as u64);
    if 0xffff_ffff < number {
        return Err(Refusal::Spent);
    }
    if 2 < port {
        return Err(Refusal::NoPort);
    }
    if 32 <= open_jobs(records) {
        return Err(Refusal::Full);
    }
    if 16 <= crowd(h, port) {
        return Err(Refusal::PortFull);
    }
    Ok(number)
}

// The answer to a read, or an abandon, of a job with these marks.
fn decide_job(asked: Record, marks: Marks) -> Reply {
    if asked.is(Kind::Read) && 255 < asked.cell() {
        return Err(Refusal::NoCell);
    }
    if !marks.is_open() {
        return Err(Refusal::NotOpen);
    }
    if asked.is(Kind::Abandon) && marks.written {
        return Err(Refusal::HasWritten);
    }
    Ok(asked.job())
}

// The kinds are open, read and abandon, and byte 1 is 0.
fn decide_request(h: &List, asked: Record) -> Reply {
    match asked.well_formed() {
        Some(Kind::Open) => decide_open(h, asked.job()),
        Some(Kind::Read | Kind::Abandon) => {
            decide_job(asked, marks_of(h.records(), asked.job()))
        }
        _ => Err(Refusal::Malformed),
    }
}

fn decide_publish(h: &List, i: usize, job: u64) -> Reply {
    if !marks_of(h.records(), job).is_open() {
        return Err(Refusal::NotOpen);
    }
    if closes(h, i, job) {
        return Err(Refusal::Circle);
    }
    Ok(job)
}

fn decide(h: &List, i: usize) -> Reply {
    match ask_at(h, i) {
        Ask::Request(asked) => decide_request(h, asked),
        Ask::Publish(job) => decide_publish(h, i, job),
    }
}

// What is granted is kept: a publish as its writes and its end, a read as it was asked, and anything else with cell 0 and the number of the answer, an open with its port.
fn keep(h: &mut List, i: usize, job: u64) {
    match ask_at(h, i) {
        Ask::Publish(job) => push_published(h, i, job),
        Ask::Request(asked) => match Kind::try_from(asked.kind()) {
            Ok(Kind::Open) => {
                h.put_port(h.size(), asked.job());
                h.push(Record::of(Kind::Open, 0, job).0);
            }
            Ok(Kind::Abandon) => h.push(Record::of(Kind::Abandon, 0, job).0),
            _ => h.push(asked.0),
        },
    }
}

// ---- the arbiter, the lister and the checker

fn cells_of(h: &List, i: usize) -> CellSet {
    CellSet {
        words: [
            h.at(place(i, 0)),
            h.at(place(i, 1)),
            h.at(place(i, 2)),
            h.at(place(i, 3)),
        ],
    }
}

fn stepped(state: State, h: &List, i: usize) -> (State, Answer) {
    match ask_at(h, i) {
        Ask::Request(asked) => state.late_step(asked.0.to_le_bytes()),
        Ask::Publish(job) => {
            state.publish(JobNumber((job % 0x1_0000_0000) as u32), cells_of(h, i))
        }
    }
}

impl From<Answer> for Said {
    fn from(answer: Answer) -> Said {
        Said(answer.code() as u64 | (answer.job().0 as u64) << 32)
    }
}

// The arbiter's answer to the last ask. It is asked all of them, the first 256 at most, from its fresh state.
fn arbiter_says(h: &List) -> Said {
    let last = h.at(ASKED).min(255) as usize;
    let mut state = State::fresh(JobNumber((h.at(FIRST) % 0x1_0000_0000) as u32));
    let mut said = Said(0);
    for i in 0..=last {
        let (next, answer) = stepped(state, h, i);
        state = next;
        said = Said::from(answer);
    }
    said
}

// Of the ask that stands last: the answer here, and the arbiter's.
pub(crate) fn answers(h: &mut List) -> (Reply, Said) {
    let i = h.at(ASKED) as usize;
    let mine = decide(h, i);
    let theirs = arbiter_says(h);
    if let Ok(job) = mine {
        keep(h, i, job);
    }
    h.bump(ASKED, 1);
    (mine, theirs)
}

// The bytes of so many records are lent at most. The room is a fixed array, by the project's rule.
const MOST_RECORDS: usize = 2048;

fn bytes_of(log: &List) -> [[u8; 8]; MOST_RECORDS] {
    let mut bytes = [[0; 8]; MOST_RECORDS];
    for (eight, x) in bytes.iter_mut().zip(log.head(MOST_RECORDS)) {
        *eight = x.to_le_bytes();
    }
    bytes
}

// Does the lister list an order for the log without the jobs still open, of at most 512 jobs, and does the checker accept it, with as many?
pub(crate) fn is_ordered(h: &List) -> bool {
    let log = closed_log(h);
    let bytes = bytes_of(&log);
    let records = bytes[..log.size() % 2049].as_flattened();
    let mut jobs = [0; 512];
    // a code of 0, and how many jobs: by the calls that C has, which are tried too
    let listed = orders::reedtangle_list_order(records, &mut jobs);
    if 512 < listed {
        return false;
    }
    orders::reedtangle_check_order(records, &jobs[..listed as usize]) == listed
}

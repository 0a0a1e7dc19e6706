// The replies by the definitions, and the arbiter's.
use crate::counts::{BEGUN, BY_ENDED, Row, Said};
use crate::kept::{ASKED, ASKS, FIRST, List, MOST_ASKS, ROOM, mark, marked_meets};
use crate::record::{Kind, Marks, Record, marks_of, open_jobs, open_records};
use arbiter::JobNumber;

// ---- the circle

// The records without those of jobs that are out by what all the records say of them.
pub(crate) fn without<F: Fn(Marks) -> bool>(h: &List, is_out: F) -> List
    requires { F.IsAlwaysCallable is_out }
{
    let records = h.records();
    let mut left = *h;
    for (x, record) in left.head_mut(h.size()).iter_mut().zip(records) {
        if is_out(marks_of(records, Record(*record).job())) {
            *x = 0;
        }
    }
    left
}

// The job of the first record without the mark that a marked one leads to.
fn first_led(records: &[u64]) -> Option<u64> {
    for (b, x) in records.iter().enumerate() {
        let record = Record(*x);
        if !record.is_marked() && marked_meets(&records[..b], record) {
            return Some(record.job());
        }
    }
    None
}

// Would the step close a circle, among the jobs that are not out? Its job is marked, and so are those that a marked step leads to, until there is none more; all that is new leads to this step: does
// a marked one lead to it?
fn closes<F: Fn(Marks) -> bool>(h: &List, step: Record, is_out: F) -> bool
    requires { F.IsAlwaysCallable is_out }
{
    let mut left = without(h, is_out);
    let records = left.head_mut(h.size());
    mark(records, step.job());
    for _ in 0..ROOM {
        let Some(job) = first_led(records) else {
            break;
        };
        mark(records, job);
    }
    marked_meets(records, step)
}

// ---- the replies by the definitions

#[derive(Clone, Copy, PartialEq, Eq)]
pub enum Refusal {
    Malformed,
    NoCell,
    NotOpen,
    HasAltered,
    Full,
    Spent,
    // By jobs that have ended, where every circle passes one.
    Circle { by_ended: bool },
    NoPort,
    PortFull,
}

impl Refusal {
    fn code(self) -> u64 {
        match self {
            Refusal::Malformed => 1,
            Refusal::NoCell => 2,
            Refusal::NotOpen => 3,
            Refusal::HasAltered => 4,
            Refusal::Full => 5,
            Refusal::Spent => 6,
            Refusal::Circle { by_ended: _ } => 7,
            Refusal::NoPort => 8,
            Refusal::PortFull => 9,
        }
    }
}

// The number of the job, or why the request is refused.
pub type Reply = Result<u64, Refusal>;

impl From<Reply> for Said {
    fn from(reply: Reply) -> Said {
        match reply {
            Ok(job) => Said::of(0, job),
            Err(refusal) => Said::of(refusal.code(), 0),
        }
    }
}

// How many jobs of a port are open?
fn crowd(h: &List, port: u64) -> usize {
    let records = h.records();
    let open = records.iter().enumerate().filter(|(i, x)| {
        h.port_at(*i) == port
            && Record(**x).is(Kind::Open)
            && marks_of(records, Record(**x).job()).is_open()
    });
    open.count()
}

fn decide_open(h: &List, port: u64) -> Reply {
    let records = h.records();
    let number = h.at(FIRST).wrapping_add(open_records(records) as u64);
    if 0xffff_ffff < number {
        return Err(Refusal::Spent);
    }
    if 2 < port {
        return Err(Refusal::NoPort);
    }
    if 32 <= open_jobs(records) {
        return Err(Refusal::Full);
    }
    if 16 <= crowd(h, port) {
        return Err(Refusal::PortFull);
    }
    Ok(number)
}

// May a job with these marks do so, but for circles? It is no open, and a publish is its write.
pub(crate) fn admitted(step: Record, marks: Marks) -> Result<(), Refusal> {
    if step.is_step() && 255 < step.cell() {
        return Err(Refusal::NoCell);
    }
    if !marks.is_open() {
        return Err(Refusal::NotOpen);
    }
    if step.is(Kind::Abandon) && marks.altered {
        return Err(Refusal::HasAltered);
    }
    Ok(())
}

// Only a step can close a circle.
fn decide_step(h: &List, step: Record) -> Reply {
    if !closes(h, step, |marks| marks.abandoned) {
        return Ok(step.job());
    }
    Err(Refusal::Circle {
        by_ended: !closes(h, step, |marks| marks.abandoned || marks.ended),
    })
}

// The reply to a request. A publish gets the reply that its write gets: the end is of an open job.
fn decide(h: &List, asked: Record) -> Reply {
    let kind = asked.well_formed().ok_or(Refusal::Malformed)?;
    if kind == Kind::Open {
        return decide_open(h, asked.job());
    }
    let step = asked.step();
    admitted(step, marks_of(h.records(), step.job()))?;
    decide_step(h, step)
}

// ---- one request, to both

// The arbiter's reply to the last of the requests. It is asked all of them, from its fresh state.
fn arbiter_says(h: &List) -> Said {
    let asks = h.asks();
    let mut requests = [[0; 8]; MOST_ASKS];
    for (request, asked) in requests.iter_mut().zip(asks) {
        *request = asked.to_le_bytes();
    }
    let requests = &requests[..asks.len().min(MOST_ASKS)];
    let mut replies = [[0; 8]; MOST_ASKS];
    let _ = arbiter::replay(
        JobNumber((h.at(FIRST) % 0x1_0000_0000) as u32),
        requests.as_flattened(),
        replies.as_flattened_mut(),
    );
    Said(u64::from_le_bytes(replies[(h.at(ASKED) % 2048) as usize]))
}

// The arbiter's reply to one request more.
fn reply_of(h: &mut List, asked: Record) -> Said {
    let i = (h.at(ASKED) % 2048) as usize;
    h.put(ASKS + i, asked.0);
    let reply = arbiter_says(h);
    h.bump(ASKED, 1);
    reply
}

// What is granted is kept: a step, also that of a publish, as it was asked, and anything else with cell 0 and the number of the reply; of an open the port too, of a publish the end too.
fn keep(h: &mut List, asked: Record, job: u64) {
    match Kind::try_from(asked.kind()) {
        Ok(Kind::Open) => {
            h.put_port(h.size(), asked.job());
            h.push(Record::of(Kind::Open, job).0);
        }
        Ok(Kind::Publish) => {
            h.push(asked.step().0);
            h.push(Record::of(Kind::End, job).0);
        }
        Ok(kind @ (Kind::End | Kind::Abandon)) => h.push(Record::of(kind, job).0),
        _ => h.push(asked.0),
    }
}

// The reply that is wanted may be given.
pub(crate) fn ask(h: &mut List, row: Row, asked: Record, want: Option<Said>) {
    let mine = decide(h, asked);
    let theirs = reply_of(h, asked);
    match mine {
        Ok(job) => {
            keep(h, asked, job);
            row.granted(h, asked);
        }
        Err(Refusal::Circle { by_ended: true }) => row.count(h, BY_ENDED),
        Err(_) => {}
    }
    row.compare(h, Said::from(mine), Some(theirs), want);
}

// An empty history begins, with its first number, and is counted.
pub(crate) fn begin(h: &mut List, row: Row, first: u64) {
    h.begin(first);
    row.count(h, BEGUN);
}

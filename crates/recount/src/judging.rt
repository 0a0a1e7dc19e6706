// Verdicts on a log and an order, and the order that the lister is to give.
use crate::counts::Said;
use crate::kept::{LENGTH, List, meets, take_out};
use crate::record::{Kind, Record, marks_of, open_records};
use crate::replies::{admitted, without};

// What is wrong with a log, an order or a list, and where.
#[derive(Clone, Copy, PartialEq, Eq)]
enum Fault {
    Length,
    Malformed(usize),
    OutOfTurn(usize),
    TooMany(usize),
    BadEntry(usize),
    Backward(usize),
    NoOrder,
    NoRoom(usize),
}

// How many jobs an order has.
type Verdict = Result<usize, Fault>;

impl From<Verdict> for Said {
    fn from(verdict: Verdict) -> Said {
        let (code, place) = match verdict {
            Ok(jobs) => (0, jobs),
            Err(Fault::Length) => (11, 0),
            Err(Fault::Malformed(place)) => (12, place),
            Err(Fault::OutOfTurn(place)) => (13, place),
            Err(Fault::TooMany(place)) => (14, place),
            Err(Fault::BadEntry(place)) => (15, place),
            Err(Fault::Backward(place)) => (16, place),
            Err(Fault::NoOrder) => (17, 0),
            Err(Fault::NoRoom(jobs)) => (18, jobs),
        };
        Said::of(code, place as u64)
    }
}

// ---- a log

// A wrong kind, byte 1 not zero, a cell above 255, or one that must be 0 and is not.
fn is_bad(record: Record) -> bool {
    let most = if record.is_step() { 255 } else { 0 };
    match record.well_formed() {
        None | Some(Kind::Publish) => true,
        Some(_) => most < record.cell(),
    }
}

// May the record come after these, which have no fault? Its place is how many they are.
fn judge_record(earlier: &[u64], record: Record) -> Result<(), Fault> {
    let place = earlier.len();
    if is_bad(record) {
        return Err(Fault::Malformed(place));
    }
    if !record.is(Kind::Open) {
        let marks = marks_of(earlier, record.job());
        return admitted(record, marks).map_err(|_| Fault::OutOfTurn(place));
    }
    let mut opens = earlier.iter().filter(|x| Record(**x).is(Kind::Open));
    if opens.any(|open| record.job() <= Record(*open).job()) {
        return Err(Fault::OutOfTurn(place));
    }
    if 512 <= open_records(earlier) {
        return Err(Fault::TooMany(place));
    }
    Ok(())
}

// The first fault of a log, if it has one.
fn judge(h: &List) -> Result<(), Fault> {
    let length = h.at(LENGTH);
    if length % 8 != 0 || 32768 < length {
        return Err(Fault::Length);
    }
    let records = h.records();
    for (place, x) in records.iter().enumerate() {
        judge_record(&records[..place], Record(*x))?;
    }
    Ok(())
}

// ---- an order

// The first place with a record of the job that waits: one before it, of a job that is not taken out, is in conflict with it.
fn first_waiting(left: &[u64], job: u64) -> Option<usize> {
    for (b, x) in left.iter().enumerate() {
        let record = Record(*x);
        if record.job() == job && meets(&left[..b], record) {
            return Some(b);
        }
    }
    None
}

// The verdict on an order for a log without a fault. The kept jobs are taken out one after the other: an entry is bad where no such job is there any more, and past the last one if a job is left. The
// first place that waited is that of a pair that runs backward.
fn check_order(h: &List, order: &List) -> Verdict {
    let mut left = without(h, |marks| marks.abandoned);
    let left = left.head_mut(h.size());
    let mut backward = None;
    // By place: an order that outgrew its list goes on with 0.
    for k in 0..order.size() {
        let job = order.at(k);
        if !marks_of(left, job).opened {
            return Err(Fault::BadEntry(k));
        }
        let end = backward.unwrap_or(left.len());
        backward = first_waiting(&left[..end.min(left.len())], job).or(backward);
        take_out(left, job);
    }
    if open_records(left) != 0 {
        return Err(Fault::BadEntry(order.size()));
    }
    match backward {
        Some(place) => Err(Fault::Backward(place)),
        None => Ok(order.size()),
    }
}

// The job that comes next. The numbers of a log rise, so it is the lowest that does not wait.
fn next_ready(left: &[u64]) -> Option<u64> {
    let mut opens = left.iter().filter(|x| Record(**x).is(Kind::Open));
    let open = opens.find(|open| first_waiting(left, Record(**open).job()).is_none())?;
    Some(Record(*open).job())
}

// An order that is laid, and a list that is lent, have at most so many jobs.
const MOST_JOBS: usize = 600;

// What a lent list has before, and no order has.
const BLANK: u32 = 0xffff_0000;

fn no_order() -> List {
    List::all(u64::from(BLANK))
}

// Place after place the lowest kept job without a place that no job without a place precedes. Where no order exists, not all kept jobs get one.
pub(crate) fn laid(h: &List) -> List {
    let mut left = without(h, |marks| marks.abandoned);
    let left = left.head_mut(h.size());
    let mut order = no_order();
    order.put(LENGTH, 0);
    for _ in 0..MOST_JOBS {
        let Some(job) = next_ready(left) else {
            break;
        };
        order.push(job);
        take_out(left, job);
    }
    order
}

// The lister's answer for a log without a fault, with room for so many jobs, where the order is as laid.
fn list_order(h: &List, room: usize, order: &List) -> Verdict {
    let records = h.records();
    let kept = records.iter().filter(|x| {
        Record(**x).is(Kind::Open) && marks_of(records, Record(**x).job()).is_kept()
    });
    let jobs = kept.count();
    if room < jobs {
        return Err(Fault::NoRoom(jobs));
    }
    if order.size() != jobs {
        return Err(Fault::NoOrder);
    }
    Ok(jobs)
}

// ---- verdicts compared

// The list as one to lend.
fn lent(list: &List) -> [u32; MOST_JOBS] {
    let mut entries = [0; MOST_JOBS];
    for (entry, x) in entries.iter_mut().zip(list.head(MOST_JOBS)) {
        *entry = (*x % 0x1_0000_0000) as u32;
    }
    entries
}

// As many records as a log may have, and two more.
const MOST_RECORDS: usize = 4098;

// The numbers of a log as bytes, in a fixed array by the project's rule.
fn bytes_of(h: &List) -> [[u8; 8]; MOST_RECORDS] {
    let mut bytes = [[0; 8]; MOST_RECORDS];
    for (eight, x) in bytes.iter_mut().zip(h.head(MOST_RECORDS)) {
        *eight = x.to_le_bytes();
    }
    bytes
}

// So many bytes of them are the log.
fn log_in<'a>(bytes: &'a [[u8; 8]; MOST_RECORDS], h: &List) -> &'a [u8] {
    let bytes = bytes.as_flattened();
    let length = (h.at(LENGTH) % 32785) as usize;
    &bytes[..length.min(bytes.len())]
}

// A code times 2^32 and a place: the checker and the lister are asked by the calls that C has, which are tried too.
fn said(number: u64) -> Said {
    Said(number >> 32 | number << 32)
}

fn checker_says(h: &List, order: &List) -> Said {
    let bytes = bytes_of(h);
    let log = log_in(&bytes, h);
    let entries = lent(order);
    let jobs = &entries[..order.size() % 601];
    said(orders::reedtangle_check_order(log, jobs))
}

// The verdict, and the checker's.
pub(crate) fn try_check(h: &List, order: &List) -> (Said, Option<Said>) {
    let mine = judge(h).and_then(|_| check_order(h, order));
    (Said::from(mine), Some(checker_says(h, order)))
}

// What the lister says, where its list is as it is to be.
fn lister_says(h: &List, room: usize, order: &List) -> Option<Said> {
    let bytes = bytes_of(h);
    let log = log_in(&bytes, h);
    let mut entries = [BLANK; MOST_JOBS];
    let jobs = &mut entries[..room % 601];
    let said = said(orders::reedtangle_list_order(log, jobs));
    if entries != lent(order) {
        return None;
    }
    Some(said)
}

// The answer, and the lister's.
pub(crate) fn try_list(h: &List, room: usize) -> (Said, Option<Said>) {
    let order = laid(h);
    let mine = judge(h).and_then(|_| list_order(h, room, &order));
    // where the answer is no order, nothing is put into the list
    let list = if mine.is_ok() { order } else { no_order() };
    (Said::from(mine), lister_says(h, room, &list))
}

// The slots: one request in place, on the arrays of a state that are lent (`step_in_place`), with the answers. The second profile over the same
// arrays is two calls, a request (`late_in_place`) and a publish of a cell set (`publish_in_place`). What is looked at and changed in the rows is in the crate `rows`. What the crate
// `network` shares with it is public too. The crate `arbiter` keeps the state by value over them, runs many requests, and has what C and Rust link.
#![tactic(auto)]

ghost use Rattle.std.specs.Prelude.{◌≡◌, List, ℕ, ◌%◌, ◌<◌, position, eqb};
ghost use Rattle.marks.specs.Marks.{mask_of};
ghost use Rattle.history.specs.Formats.{request_of};
ghost use Rattle.history.specs.Replies.{Reply, an_open, an_end, an_abandon, a_publish};
ghost use Rattle.late.specs.Late.{asks, publishes};
ghost use Rattle.rows.specs.Rows.{kind_of};
ghost use Rattle.slots.specs.Lent.{lent, refusal_code, reply_by, packed, crowd_of, under, Does, Asks, Steps, Lates};
ghost use Rattle.slots.specs.Finds.{holds, slot_with, reaches, circled};
ghost use Rattle.slots.specs.Requests.{NamesKind, Reads};
ghost use Rattle.slots.specs.declared.Refusal.TheVariants.{NoCell};

use cells::{Cell, CellSet, NoSuchCell};
pub use rows::Slot;
use rows::{Deed, end_slot, has_altered, leave_slot, open_slot, step_slot, touching, write_set};

// The number of a job, issued once.
#[derive(Clone, Copy, Debug, PartialEq, Eq)]
pub struct JobNumber(pub u32);

// ---- answers

// Why a request is refused.
#[derive(Clone, Copy, Debug, PartialEq, Eq)]
pub enum Refusal {
    Malformed,
    NoCell,
    NotOpen,
    HasWritten,
    Full,
    Spent,
    Circle,
    NoPort,
    PortFull,
}

// What a refusal is told by: its code. The crate `locking` has refusals of another kind. It is not `Told` of `codes`: a refusal here has no place, and is answered with job 0.
pub trait Refuses: Copy {
    ghost number: { Self → ℕ };

    fn code(self) -> u32
        ensures { result ≡ number self };
}

impl Refuses for Refusal {
    ghost number = { refusal_code };

    // Document 01's code; 8 and 9 are those of document 02, order 9.
    fn code(self) -> u32 {
        match self {
            Refusal::Malformed => 1,
            Refusal::NoCell => 2,
            Refusal::NotOpen => 3,
            Refusal::HasWritten => 4,
            Refusal::Full => 5,
            Refusal::Spent => 6,
            Refusal::Circle => 7,
            Refusal::NoPort => 8,
            Refusal::PortFull => 9,
        }
    }
}

// A step on a number that is no cell is refused so.
impl From<NoSuchCell> for Refusal {
    ghost from_gives = { λ _ refusal. refusal ≡ NoCell };

    fn from(_none: NoSuchCell) -> Refusal {
        Self::NoCell
    }
}

// What the arbiter answers: a grant with the job, or one of the refusals.
pub type Answer = Result<JobNumber, Refusal>;

// What an answer is told by: its code and its job.
pub trait Replied: Copy {
    ghost reply: { Self → Reply };

    fn code(self) -> u32
        ensures { result ≡ (reply self).code };

    fn job(self) -> JobNumber
        ensures { result.0 ≡ (reply self).job };
}

impl<E: Refuses> Replied for Result<JobNumber, E> {
    ghost reply = { reply_by E.number };

    // Code 0 for a grant.
    fn code(self) -> u32 {
        match self {
            Ok(_) => 0,
            Err(refusal) => refusal.code(),
        }
    }

    // The job of a grant, and job 0 for a refusal.
    fn job(self) -> JobNumber {
        match self {
            Ok(job) => job,
            Err(_) => JobNumber(0),
        }
    }
}

// An answer in one number: code times 2^32 plus job. Not by `in_one` of `codes`, whose sum is modulo 2^64: `packed` is of a `Reply`. A product and a sum, as `packed` says it.
#[tactic(auto, unfolding(crate::specs::Lent::packed))]
pub fn in_one<A: Replied>(answer: A) -> u64
    ensures { result ≡ packed (A.reply answer) }
{
    (answer.code() as u64) * 4294967296 + (answer.job().0 as u64)
}

// ---- requests

// What a request asks for.
#[derive(Clone, Copy, Debug, PartialEq, Eq)]
pub enum Kind {
    Open,
    Read,
    Write,
    End,
    Abandon,
    Publish,
    Add,
}

impl TryFrom<u8> for Kind {
    type Error = Refusal;

    ghost try_from_gives = { NamesKind };

    fn try_from(number: u8) -> Result<Kind, Refusal> {
        match number {
            1 => Ok(Kind::Open),
            2 => Ok(Kind::Read),
            3 => Ok(Kind::Write),
            4 => Ok(Kind::End),
            5 => Ok(Kind::Abandon),
            6 => Ok(Kind::Publish),
            7 => Ok(Kind::Add),
            _ => Err(Refusal::Malformed),
        }
    }
}

// A well-formed request. The job field of an open names the port.
#[derive(Clone, Copy, Debug, PartialEq, Eq)]
pub struct Request {
    pub kind: Kind,
    pub cell: u32,
    pub job: JobNumber,
}

// The cell field of a request, and its job field, low byte first.
pub fn cell_in(request: [u8; 8]) -> u32
    ensures { result ≡ (request_of request).cell }
{
    u32::from(u16::from_le_bytes([request[2], request[3]]))
}

pub fn job_in(request: [u8; 8]) -> JobNumber
    ensures { result.0 ≡ (request_of request).job }
{
    JobNumber(u32::from_le_bytes([request[4], request[5], request[6], request[7]]))
}

// Of eight bytes: the kind, one that is 0, two of cell and four of job.
impl TryFrom<[u8; 8]> for Request {
    type Error = Refusal;

    ghost try_from_gives = { λ bytes outcome. Reads (request_of bytes) outcome };

    fn try_from(bytes: [u8; 8]) -> Result<Request, Refusal> {
        let kind = Kind::try_from(bytes[0])?;
        if bytes[1] != 0 {
            return Err(Refusal::Malformed);
        }
        Ok(Request {
            kind,
            cell: cell_in(bytes),
            job: job_in(bytes),
        })
    }
}

// ---- what is looked for

// The open slots that hold the number.
fn holding(free: u32, numbers: &[u32; 32], job: JobNumber) -> u32
    ensures { result ≡ mask_of 32 (holds free numbers.now job.0) }
{
    let mut found: u32 = 0;
    for (i, number) in numbers.iter().enumerate() {
        if *number == job.0 {
            found |= 1u32 << i;
        }
    }
    found & !free
}

// The lowest slot of all that holds the number, open or not.
fn first_holding(numbers: &[u32; 32], job: JobNumber) -> Option<usize>
    ensures { result ≡ position (λ n. eqb n job.0) numbers.now }
{
    numbers.iter().position(|number| *number == job.0)
}

// The lowest open slot that holds the number. The lowest slot of all that holds it is nearly always open; only where it is not, every number is looked at.
pub fn slot_for(free: u32, numbers: &[u32; 32], job: JobNumber) -> Option<Slot>
    ensures { result ≡ slot_with free numbers.now job.0 }
{
    let first = first_holding(numbers, job)?;
    if free & (1u32 << first) == 0 {
        return Some(Slot(first as u32));
    }
    let found = holding(free, numbers, job);
    if found == 0 {
        return None;
    }
    Some(Slot(found.trailing_zeros()))
}

// The open slots reached from the slot by one lead or more, over open slots. What is left to do grows while it is done: there is no count to go by, and no list to go through.
fn reached(free: u32, leads: &[u32; 32], slot: Slot) -> u32
    requires { slot.0 < 32 }
    ensures { result ≡ mask_of 32 (reaches free leads.now slot.0) }
{
    let mut seen = leads[slot.0 as usize] & !free;
    let mut todo = seen;
    while todo != 0 {
        let i = todo.trailing_zeros();
        let fresh = leads[i as usize] & !free & !seen;
        seen |= fresh;
        todo = (todo & (todo - 1)) | fresh;
    }
    seen
}

// Is there a chain from the slot back to it, over open slots, once the slots of the mask lead to it?
pub fn closes(free: u32, leads: &[u32; 32], slot: Slot, from: u32) -> bool
    ensures { result ≡ circled free leads.now (slot.0 % 32) from }
{
    let own = Slot(slot.0 % 32);
    let seen = reached(free, leads, own);
    let me = 1u32 << own.0;
    (seen & me) | ((seen | me) & from) != 0
}

// ---- the ports, each with a mask of its slots

// How many open slots a port has.
fn crowd(free: u32, ports: &[u32; 3], port: u32) -> u32
    requires { port < 3 }
    ensures { result ≡ crowd_of free ports.now port }
{
    (!free & ports[port as usize]).count_ones()
}

// The slot goes under its port, and under no other.
fn put_under(ports: &mut [u32; 3], port: u32, slot: Slot)
    requires { (port < 3) × (slot.0 < 32) }
    ensures { ports.new ≡ under ports.old port slot.0 }
{
    let mark = 1u32 << slot.0;
    for mask in ports.iter_mut() {
        *mask &= !mark;
    }
    ports[port as usize] |= mark;
}

// ---- one request of each kind. The state is lent part by part, as `reedtangle_step` of the crate `arbiter` lends it from C; a function is lent only what it changes, and what it only looks at it
// has by value or by a shared reference. A refusal leaves all as it was. What is not lent stays, whatever it is.

// The job field of an open names the port.
pub fn open_job(
    next: &mut u64,
    free: &mut u32,
    numbers: &mut [u32; 32],
    leads: &mut [u32; 32],
    sets: &mut [u64; 512],
    ports: &mut [u32; 3],
    port: u32,
) -> Answer
    ensures { Does (lent next.old free.old numbers.old leads.old sets.old ports.old) an_open port 0 result (lent next.new free.new numbers.new leads.new sets.new ports.new) }
{
    let Ok(number) = u32::try_from(*next) else {
        return Err(Refusal::Spent);
    };
    if 3 <= port {
        return Err(Refusal::NoPort);
    }
    let spare = *free;
    if spare.count_ones() == 0 {
        return Err(Refusal::Full);
    }
    if 16 <= crowd(spare, ports, port) {
        return Err(Refusal::PortFull);
    }
    let slot = Slot(spare.trailing_zeros());
    numbers[slot.0 as usize] = number;
    put_under(ports, port, slot);
    *free = open_slot(spare, leads, sets, slot);
    *next += 1;
    Ok(JobNumber(number))
}

// Those below begin alike, with the look for the job's slot, and differ in what they do with it. A step is tested for a circle where that is asked, as `Asks` says. In the second profile a read is not: it is tested for its cell and its job alone.
// `asked` is a flag: a closure in its place would have to be shown to be `closes` or nothing, which is what `asked` says.
fn step_job(
    free: u32,
    numbers: &[u32; 32],
    leads: &mut [u32; 32],
    sets: &mut [u64; 512],
    deed: Deed,
    job: JobNumber,
    cell: u32,
    asked: bool,
) -> Answer
    ensures { (next : ℕ) → (ports : List ℕ) → Asks (lent next free numbers.now leads.old sets.old ports) asked (kind_of deed) job.0 cell result (lent next free numbers.now leads.new sets.new ports) }
{
    let cell = Cell::try_from(cell)?;
    let slot = slot_for(free, numbers, job).ok_or(Refusal::NotOpen)?;
    let touched = touching(free, sets, slot, deed, cell);
    if asked && closes(free, leads, slot, touched) {
        return Err(Refusal::Circle);
    }
    step_slot(leads, sets, slot, deed, cell, touched);
    Ok(job)
}

fn end_job(
    free: &mut u32,
    numbers: &mut [u32; 32],
    leads: &mut [u32; 32],
    sets: &mut [u64; 512],
    job: JobNumber,
) -> Answer
    ensures { (next : ℕ) → (ports : List ℕ) → Does (lent next free.old numbers.old leads.old sets.old ports) an_end job.0 0 result (lent next free.new numbers.new leads.new sets.new ports) }
{
    let slot = slot_for(*free, numbers, job).ok_or(Refusal::NotOpen)?;
    *free = end_slot(*free, numbers, leads, sets, slot);
    Ok(job)
}

fn abandon_job(
    free: &mut u32,
    numbers: &mut [u32; 32],
    leads: &mut [u32; 32],
    sets: &mut [u64; 512],
    job: JobNumber,
) -> Answer
    ensures { (next : ℕ) → (ports : List ℕ) → Does (lent next free.old numbers.old leads.old sets.old ports) an_abandon job.0 0 result (lent next free.new numbers.new leads.new sets.new ports) }
{
    let slot = slot_for(*free, numbers, job).ok_or(Refusal::NotOpen)?;
    if has_altered(sets, slot) {
        return Err(Refusal::HasWritten);
    }
    *free = leave_slot(*free, numbers, leads, sets, slot);
    Ok(job)
}

// The write, and where it was granted the end of its job. Where it was refused, its answer: the job stays open.
fn publish_job(
    free: &mut u32,
    numbers: &mut [u32; 32],
    leads: &mut [u32; 32],
    sets: &mut [u64; 512],
    job: JobNumber,
    on: u32,
) -> Answer
    ensures { (next : ℕ) → (ports : List ℕ) → Does (lent next free.old numbers.old leads.old sets.old ports) a_publish job.0 on result (lent next free.new numbers.new leads.new sets.new ports) }
{
    let written = step_job(*free, numbers, leads, sets, Deed::Write, job, on, true)?;
    end_job(free, numbers, leads, sets, written)
}

// One request in place: the state is lent. A refusal leaves all of it as it was.
pub fn step_in_place(
    next: &mut u64,
    free: &mut u32,
    numbers: &mut [u32; 32],
    leads: &mut [u32; 32],
    sets: &mut [u64; 512],
    ports: &mut [u32; 3],
    request: [u8; 8],
) -> Answer
    ensures { Steps (lent next.old free.old numbers.old leads.old sets.old ports.old) (request_of request) result (lent next.new free.new numbers.new leads.new sets.new ports.new) }
{
    let asked = Request::try_from(request)?;
    let job = asked.job;
    let on = asked.cell;
    match asked.kind {
        Kind::Open => open_job(next, free, numbers, leads, sets, ports, job.0),
        Kind::Read => step_job(*free, numbers, leads, sets, Deed::Read, job, on, true),
        Kind::Write => step_job(*free, numbers, leads, sets, Deed::Write, job, on, true),
        Kind::End => end_job(free, numbers, leads, sets, job),
        Kind::Abandon => abandon_job(free, numbers, leads, sets, job),
        Kind::Publish => publish_job(free, numbers, leads, sets, job, on),
        Kind::Add => step_job(*free, numbers, leads, sets, Deed::Add, job, on, true),
    }
}

// ---- the second profile

// One request of the second profile in place: an open, a read or an abandon. A refusal leaves all as it was.
pub fn late_in_place(
    next: &mut u64,
    free: &mut u32,
    numbers: &mut [u32; 32],
    leads: &mut [u32; 32],
    sets: &mut [u64; 512],
    ports: &mut [u32; 3],
    request: [u8; 8],
) -> Answer
    ensures { Lates (lent next.old free.old numbers.old leads.old sets.old ports.old) (asks (request_of request)) result (lent next.new free.new numbers.new leads.new sets.new ports.new) }
{
    let asked = Request::try_from(request)?;
    let by = asked.job;
    let on = asked.cell;
    match asked.kind {
        Kind::Open => open_job(next, free, numbers, leads, sets, ports, by.0),
        Kind::Read => step_job(*free, numbers, leads, sets, Deed::Read, by, on, false),
        Kind::Abandon => abandon_job(free, numbers, leads, sets, by),
        _ => Err(Refusal::Malformed),
    }
}

// The publish of the second profile in place: the writes of a cell set and the end. It opens nothing, so that no next number is lent. Where the writes are refused all stays as it was.
pub fn publish_in_place(
    free: &mut u32,
    numbers: &mut [u32; 32],
    leads: &mut [u32; 32],
    sets: &mut [u64; 512],
    job: JobNumber,
    cells: CellSet,
) -> Answer
    ensures { (next : ℕ) → (ports : List ℕ) → Lates (lent next free.old numbers.old leads.old sets.old ports) (publishes job.0 cells.words) result (lent next free.new numbers.new leads.new sets.new ports) }
{
    let slot = slot_for(*free, numbers, job).ok_or(Refusal::NotOpen)?;
    if write_set(*free, leads, sets, slot, cells) {
        return Err(Refusal::Circle);
    }
    *free = end_slot(*free, numbers, leads, sets, slot);
    Ok(job)
}

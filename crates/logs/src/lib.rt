// The reading of a log into a table of its jobs, and the search for a job in it.
#![tactic(auto)]

ghost use Rattle.std.specs.Prelude.{◌≡◌, cond, List, ℕ, ◌≤◌, ◌<◌, leb};
ghost use Rattle.history.specs.Events.{History, Kind};
ghost use Rattle.verdicts.specs.Logs.{kind_number};
ghost use Rattle.tallies.specs.Jobs.{Rises, first_row, Taken};
ghost use Rattle.logs.specs.Faults.{code_of, place_of};
ghost use Rattle.logs.specs.Search.{halved, there, searched, Found};
ghost use Rattle.logs.specs.Logs.{request, TookIn, BlankIn, IsBlank, ReadsIn, Reads, Cleared, Judged};

use codes::Told;
use reader::{Reader, Record};

mod table;

pub use table::{ABANDONED, ENDED, OPEN, Table, WRITTEN};

// ---- faults

// Why a log is refused: its length, or a record, with its place: its form, its turn, or one job too many.
#[derive(Clone, Copy, PartialEq, Eq)]
pub enum Fault {
    Length,
    Form(usize),
    Turn(usize),
    TooMany(usize),
}

impl Told for Fault {
    ghost number = { code_of };

    ghost place_of = { place_of };

    fn code(self) -> u32 {
        match self {
            Fault::Length => 11,
            Fault::Form(_) => 12,
            Fault::Turn(_) => 13,
            Fault::TooMany(_) => 14,
        }
    }

    fn place(self) -> usize {
        match self {
            Fault::Length => 0,
            Fault::Form(place) | Fault::Turn(place) | Fault::TooMany(place) => place,
        }
    }
}

// ---- the jobs of a log

// Here numbers and count stand side by side, and no slice: `searched` and `there` are said of both, and `find_job` takes any count.

// How far a search goes up: `half` where the number is at most the job's, and else not at all. The quotient is 1 or 0: of a test the compiler makes a branch,
// which is mispredicted every other time.
fn go_up(half: usize, number: u32, job: u32) -> usize
    ensures { (result ≤ half) × (result ≡ cond (leb number job) half 0) }
{
    half * ((4294967296 + job as usize - number as usize) / 4294967296)
}

// Where the job stands among the first `count` numbers, which rise. Of 512 numbers std's `binary_search`, whose tests are branches, takes two and a half times as long;
// and it does not say which answer is given where numbers do not rise, so that there would not be one (`one_find_job`).
fn halve(numbers: &[u32; 512], count: usize, job: u32) -> Option<usize>
    requires { count ≤ 512 }
    ensures { Found numbers.now count job result × (result ≡ there numbers.now count job (halved count numbers.now job 0 count) None) }
{
    let all = &numbers[..];
    let mut low: usize = 0;
    let mut size: usize = count;
    while 1 < size {
        let half = size / 2;
        low += go_up(half, all[low + half], job);
        size -= half;
    }
    if low < count && all[low] == job {
        return Some(low);
    }
    None
}

// The same. The numbers of a log that starts at a fresh state stand side by side, and then the place is a difference.
fn find(numbers: &[u32; 512], count: usize, job: u32) -> Option<usize>
    requires { count ≤ 512 }
    ensures { Found numbers.now count job result × (result ≡ searched numbers.now count job) }
{
    let all = &numbers[..];
    let first = all[0];
    if first <= job {
        let guess = (job - first) as usize;
        if guess < count && all[guess] == job {
            return Some(guess);
        }
    }
    halve(numbers, count, job)
}

// The same of any table and count. A table has 512 numbers: of more nothing is found. What is found among numbers that do not rise is of no use, but it is one place (`searched`).
pub fn find_job(numbers: &[u32; 512], count: usize, job: u32) -> Option<usize>
    ensures { (count ≤ 512 → Found numbers.now count job result) × (result ≡ cond (leb count 512) (searched numbers.now count job) None) }
{
    if 512 < count {
        return None;
    }
    find(numbers, count, job)
}

impl Table {
    // No jobs.
    pub fn blank() -> Table
        ensures { IsBlank result }
    {
        Table {
            numbers: [0; 512],
            states: [0; 512],
            told: [0; 4096],
            count: 0,
        }
    }

    // Where the job stands in the table.
    pub fn find(&self, job: u32) -> Option<usize>
        ensures { Found self.now.numbers self.now.count job result × (result ≡ searched self.now.numbers self.now.count job) }
    {
        find(&self.numbers, self.count, job)
    }
}

// ---- the records

// The kinds of a record. A publish stands in a log as its two records, so that there is no 6. An enum would be made of the byte by one match, and taken apart by another.
const OPENS: u8 = 1;

const READS: u8 = 2;

const WRITES: u8 = 3;

const ENDS: u8 = 4;

const ABANDONS: u8 = 5;

const ADDS: u8 = 7;

// An open, a read, a write, an add or an end is told as its job's place times 770, plus its row, plus 1; an abandon as 0. The rows are the reads of cells 0 to 255, then
// the writes of those, then the adds, then all opens (768) and all ends (769). A record's place is below 4,096, the room of `told`, as the length of a log is tested first; a type for it would be made in `read_records` and
// taken apart in each of the three that put it down.
// The reads, ends and abandons of a job begin with the same two tests, and differ in what they do then.
// The parts of a table are lent one by one, and not as a `Table`: of a list for the steps told that nobody reads (`judge`) the compiler then makes nothing, where of a struct it keeps each part, 16,384 bytes of the stack of
// an import. So the count (`jobs`, where it may grow) comes with its bound, which is a fact of a `Table`; a struct of the references would need a clause for each field in each contract.
fn take_open(
    place: usize,
    job: u32,
    cell: u32,
    numbers: &mut [u32; 512],
    states: &mut [u8; 512],
    told: &mut [u32; 4096],
    jobs: &mut usize,
) -> Result<(), Fault>
    requires { (jobs.old ≤ 512) × (place < 4096) }
    ensures { (jobs.new ≤ 512) × ((h : History) → Taken h place numbers.old states.old told.old jobs.old
        → TookIn h place (request 1 0 cell job) result numbers.new states.new told.new jobs.new) }
{
    let count = *jobs;
    let all = &mut numbers[..];
    if cell != 0 {
        return Err(Fault::Form(place));
    }
    if count != 0 && job <= all[count - 1] {
        return Err(Fault::Turn(place));
    }
    if 512 <= count {
        return Err(Fault::TooMany(place));
    }
    all[count] = job;
    let stand = &mut states[..];
    stand[count] = OPEN;
    let steps = &mut told[..];
    steps[place] = (count as u32) * 770 + 769;
    *jobs = count + 1;
    Ok(())
}

// A read, a write or an add, by the first of the rows of its kind: what is told has that number in it, and an enum would be made in `take_record` to be turned into it here.
fn take_step(
    place: usize,
    first: u32,
    job: u32,
    cell: u32,
    numbers: &[u32; 512],
    states: &mut [u8; 512],
    told: &mut [u32; 4096],
    count: usize,
) -> Result<(), Fault>
    requires { (first ≤ 512) × (count ≤ 512) × (place < 4096) }
    ensures { (h : History) (k : Kind) → first ≡ first_row k → Taken h place numbers.now states.old told.old count
        → TookIn h place (request (kind_number k) 0 cell job) result numbers.now states.new told.new count }
{
    if 256 <= cell {
        return Err(Fault::Form(place));
    }
    let i = find(numbers, count, job).ok_or(Fault::Turn(place))?;
    let stand = &mut states[..];
    if WRITTEN < stand[i] {
        return Err(Fault::Turn(place));
    }
    if first != 0 {
        stand[i] = WRITTEN;
    }
    let steps = &mut told[..];
    steps[place] = (i as u32) * 770 + first + cell + 1;
    Ok(())
}

fn take_end(
    place: usize,
    job: u32,
    cell: u32,
    numbers: &[u32; 512],
    states: &mut [u8; 512],
    told: &mut [u32; 4096],
    count: usize,
) -> Result<(), Fault>
    requires { (count ≤ 512) × (place < 4096) }
    ensures { (h : History) → Taken h place numbers.now states.old told.old count
        → TookIn h place (request 4 0 cell job) result numbers.now states.new told.new count }
{
    if cell != 0 {
        return Err(Fault::Form(place));
    }
    let i = find(numbers, count, job).ok_or(Fault::Turn(place))?;
    let stand = &mut states[..];
    if WRITTEN < stand[i] {
        return Err(Fault::Turn(place));
    }
    stand[i] = ENDED;
    let steps = &mut told[..];
    steps[place] = (i as u32) * 770 + 770;
    Ok(())
}

fn take_abandon(
    place: usize,
    job: u32,
    cell: u32,
    numbers: &[u32; 512],
    states: &mut [u8; 512],
    count: usize,
) -> Result<(), Fault>
    requires { count ≤ 512 }
    ensures { (h : History) (told : List ℕ) → Taken h place numbers.now states.old told count
        → TookIn h place (request 5 0 cell job) result numbers.now states.new told count }
{
    if cell != 0 {
        return Err(Fault::Form(place));
    }
    let i = find(numbers, count, job).ok_or(Fault::Turn(place))?;
    let stand = &mut states[..];
    if stand[i] != OPEN {
        return Err(Fault::Turn(place));
    }
    stand[i] = ABANDONED;
    Ok(())
}

fn take_record(
    place: usize,
    r: Record,
    numbers: &mut [u32; 512],
    states: &mut [u8; 512],
    told: &mut [u32; 4096],
    jobs: &mut usize,
) -> Result<(), Fault>
    requires { (jobs.old ≤ 512) × (place < 4096) }
    ensures { (jobs.new ≤ 512) × ((h : History) → Taken h place numbers.old states.old told.old jobs.old
        → TookIn h place (request r.kind r.byte1 r.cell r.job) result numbers.new states.new told.new jobs.new) }
{
    if r.byte1 != 0 {
        return Err(Fault::Form(place));
    }
    let kind = r.kind;
    match kind {
        OPENS => take_open(place, r.job, r.cell, numbers, states, told, jobs),
        READS => take_step(place, 0, r.job, r.cell, numbers, states, told, *jobs),
        WRITES => take_step(place, 256, r.job, r.cell, numbers, states, told, *jobs),
        ENDS => take_end(place, r.job, r.cell, numbers, states, told, *jobs),
        ABANDONS => take_abandon(place, r.job, r.cell, numbers, states, *jobs),
        ADDS => take_step(place, 512, r.job, r.cell, numbers, states, told, *jobs),
        _ => Err(Fault::Form(place)),
    }
}

// The records of a log, into the parts of a table that is blank.
fn read_records(
    log: &[u8],
    numbers: &mut [u32; 512],
    states: &mut [u8; 512],
    told: &mut [u32; 4096],
    jobs: &mut usize,
) -> Result<(), Fault>
    requires { jobs.old ≤ 512 }
    ensures { (jobs.new ≤ 512)
        × (BlankIn numbers.old states.old told.old jobs.old → ReadsIn log.now result numbers.new states.new told.new jobs.new) }
{
    if log.len() % 8 != 0 || 32768 < log.len() {
        return Err(Fault::Length);
    }
    for (place, r) in Reader::new(log).enumerate() {
        take_record(place, r, numbers, states, told, jobs)?;
    }
    Ok(())
}

// A whole log, whatever the table held: its jobs by number and state, and its steps told (`Taken`). Where it is faulty the table is blank.
pub fn read_jobs(log: &[u8], table: &mut Table) -> Result<(), Fault>
    ensures { Reads log.now result table.new × Cleared result table.new }
{
    *table = Table::blank();
    let outcome = read_records(
        log,
        &mut table.numbers,
        &mut table.states,
        &mut table.told,
        &mut table.count,
    );
    if outcome.is_err() {
        *table = Table::blank();
    }
    outcome
}

// Has the log a fault? As `read_jobs` finds it; what the log tells is not kept.
pub fn judge(log: &[u8]) -> Result<(), Fault>
    ensures { Judged log.now result }
{
    let mut numbers: [u32; 512] = [0; 512];
    let mut states: [u8; 512] = [0; 512];
    let mut told: [u32; 4096] = [0; 4096];
    let mut jobs: usize = 0;
    read_records(log, &mut numbers, &mut states, &mut told, &mut jobs)
}

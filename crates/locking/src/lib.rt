// The run by plain locks: one request in place, on the arrays of a state that are lent (`lock_in_place`), and what C and Rust link. A step or a publish that another open slot bars is
// put off with code 10, and every array stays as it was; any other request is answered, and moves the state, as in the first profile, by the crate `slots`. What a slot holds stands in
// its own used and altered cells: a read looks at the altered cells of others, a write and an add at both. The past is not looked at. The state is lent part by part, as C lends it
// (`reedtangle_lock_step`).
#![tactic(auto)]

ghost use Rattle.std.specs.Prelude.{◌≡◌, [], ◌<◌};
ghost use Rattle.history.specs.Formats.{request_of};
ghost use Rattle.rows.specs.Rows.{rows_of};
ghost use Rattle.slots.specs.Lent.{lent, packed};
ghost use Rattle.locks.specs.LocksHeld.{put_off_at, lock_answer, lock_next};
ghost use Rattle.locking.specs.Locking.{lock_code, Locks, bar_word, bars, barred_by, held_off};
ghost use Rattle.locking.specs.declared.LockRefusal.TheVariants.{First};

use cells::Cell;
use slots::{JobNumber, Kind, Refusal, Refuses, Request, Slot, slot_for, step_in_place};

// Why a request is not granted: it is put off, or the first profile refuses it.
#[derive(Clone, Copy, Debug, PartialEq, Eq)]
pub enum LockRefusal {
    PutOff,
    First(Refusal),
}

impl From<Refusal> for LockRefusal {
    ghost from_gives = { λ refusal outcome. outcome ≡ First refusal };

    fn from(refusal: Refusal) -> LockRefusal {
        LockRefusal::First(refusal)
    }
}

impl Refuses for LockRefusal {
    ghost number = { lock_code };

    // Code 10 for what is put off, or the first profile's code.
    fn code(self) -> u32 {
        match self {
            LockRefusal::PutOff => 10,
            LockRefusal::First(refusal) => refusal.code(),
        }
    }
}

// What is answered by locks.
pub type LockAnswer = Result<JobNumber, LockRefusal>;

// ---- what bars a step. Three kinds alter their cell and one does not, so that each function here goes by a flag, `alters`, as its definition in specs does.

// The word of a row's own sets in which it would show: of the altered cells, and for a step that alters of the used cells too. Not as
// `Step` of `rows` has it: there an add looks at the used cells alone.
fn barring(sets: &[u64; 512], row: Slot, alters: bool, place: usize) -> u64
    requires { (row.0 < 32) × (place < 4) }
    ensures { result ≡ bar_word sets.now alters place row.0 }
{
    let at = (row.0 as usize) * 16;
    let altered = sets[at + (4 + place)];
    if alters {
        return altered | sets[at + place];
    }
    altered
}

// Does the row bar the slot: is it open, another one, and has its word the mark?
fn row_bars(
    free: u32,
    sets: &[u64; 512],
    row: Slot,
    slot: Slot,
    alters: bool,
    place: usize,
    mark: u64,
) -> bool
    requires { (row.0 < 32) × (place < 4) }
    ensures { result ≡ bars free sets.now alters slot.0 place mark row.0 }
{
    if free & (1u32 << row.0) != 0 {
        return false;
    }
    if row.0 == slot.0 {
        return false;
    }
    barring(sets, row, alters, place) & mark != 0
}

// Does some row? Not by `any` over the rows: tried, and `returns` stayed open, that what `any` finds of the range is `barred_by`.
fn barred(free: u32, sets: &[u64; 512], slot: Slot, alters: bool, cell: Cell) -> bool
    ensures { result ≡ barred_by (rows_of free [] [] sets.now) alters slot.0 cell.0 }
{
    let place = cell.place();
    let mark = cell.mark();
    for i in 0..32 {
        if row_bars(free, sets, Slot(i), slot, alters, place, mark) {
            return true;
        }
    }
    false
}

// A step of a job on a cell, that alters it or does not: is the cell real, the job open, and its slot barred?
fn held_off(
    free: u32,
    numbers: &[u32; 32],
    sets: &[u64; 512],
    job: JobNumber,
    cell: u32,
    alters: bool,
) -> bool
    ensures { result ≡ held_off (rows_of free numbers.now [] sets.now) alters job.0 cell }
{
    let Ok(cell) = Cell::try_from(cell) else {
        return false;
    };
    let Some(slot) = slot_for(free, numbers, job) else {
        return false;
    };
    barred(free, sets, slot, alters, cell)
}

// Is the request well-formed, a step or a publish, and held off so? A publish alters its cell, as its write does.
fn put_off(free: u32, numbers: &[u32; 32], sets: &[u64; 512], request: [u8; 8]) -> bool
    ensures { result ≡ put_off_at (rows_of free numbers.now [] sets.now) (request_of request) }
{
    let Ok(asked) = Request::try_from(request) else {
        return false;
    };
    let job = asked.job;
    let cell = asked.cell;
    match asked.kind {
        Kind::Read => held_off(free, numbers, sets, job, cell, false),
        Kind::Write | Kind::Publish | Kind::Add => held_off(free, numbers, sets, job, cell, true),
        Kind::Open | Kind::End | Kind::Abandon => false,
    }
}

// ---- one request

// One request in place: the state is lent. A request that is put off or refused leaves all of it as it was.
pub fn lock_in_place(
    next: &mut u64,
    free: &mut u32,
    numbers: &mut [u32; 32],
    leads: &mut [u32; 32],
    sets: &mut [u64; 512],
    ports: &mut [u32; 3],
    request: [u8; 8],
) -> LockAnswer
    ensures { Locks (lent next.old free.old numbers.old leads.old sets.old ports.old) (request_of request) result (lent next.new free.new numbers.new leads.new sets.new ports.new) }
{
    if put_off(*free, numbers, sets, request) {
        return Err(LockRefusal::PutOff);
    }
    Ok(step_in_place(next, free, numbers, leads, sets, ports, request)?)
}

// One request by locks on the state that the host keeps: code times 2^32 plus job. The crate `locking_c` exports it to C and Rust.
pub fn reedtangle_lock_step(
    next: &mut u64,
    free: &mut u32,
    numbers: &mut [u32; 32],
    leads: &mut [u32; 32],
    sets: &mut [u64; 512],
    ports: &mut [u32; 3],
    request: &[u8; 8],
) -> u64
    ensures { (result ≡ packed (lock_answer (lent next.old free.old numbers.old leads.old sets.old ports.old) (request_of request.now)))
        × (lent next.new free.new numbers.new leads.new sets.new ports.new ≡ lock_next (lent next.old free.old numbers.old leads.old sets.old ports.old) (request_of request.now)) }
{
    slots::in_one(lock_in_place(next, free, numbers, leads, sets, ports, *request))
}

// A batch: up to 64 reads, writes and adds in one call, granted all or none. Each item is a step of the arbiter, in place. A step of these kinds moves nothing but leads and
// sets; as they were before the first is kept on the stack, and put back where a later item is refused. The ports are not lent: each contract says what holds whatever they are.
// The state is lent part by part, as C lends it (`reedtangle_batch`).
#![tactic(auto)]

ghost use Rattle.std.specs.Prelude.{◌≡◌, List, ℕ};
ghost use Rattle.history.specs.Formats.{records, request_of};
ghost use Rattle.slots.specs.Lent.{lent};
ghost use Rattle.batch.specs.Batch.{batch, batch_leaves, packed};
ghost use Rattle.batch.specs.Leaves.{told_code, told_place, Takes, Runs, Batches};

pub use codes::Told;
use codes::in_one;
use slots::{Answer, Kind, Refusal, Refuses, step_in_place};

// Why a batch is refused: its length is wrong, or its first item that is refused, with that item's place.
#[derive(Clone, Copy, Debug, PartialEq, Eq)]
pub enum BatchRefusal {
    Length,
    Item(Refusal, usize),
}

// Document 02's codes.
impl Told for BatchRefusal {
    ghost number = { told_code };

    ghost place_of = { told_place };

    fn code(self) -> u32 {
        match self {
            BatchRefusal::Length => 25,
            BatchRefusal::Item(refusal, _) => refusal.code(),
        }
    }

    fn place(self) -> usize {
        match self {
            BatchRefusal::Length => 0,
            BatchRefusal::Item(_, place) => place,
        }
    }
}

// What a batch answers: a grant with the count of its items, or why it is refused.
pub type Batched = Result<usize, BatchRefusal>;

// One item: what it gets by itself, if it is of a kind that a batch takes. Such a step looks at no ports and moves neither the next number nor the free slots, so that a copy of
// these and any ports are good enough to lend.
fn step_item(
    mut next: u64,
    mut free: u32,
    numbers: &mut [u32; 32],
    leads: &mut [u32; 32],
    sets: &mut [u64; 512],
    item: [u8; 8],
) -> Answer
    ensures { (ports : List ℕ) → Takes (lent next free numbers.old leads.old sets.old ports) (request_of item) result numbers.new leads.new sets.new }
{
    match Kind::try_from(item[0])? {
        Kind::Read | Kind::Write | Kind::Add => {
            let mut ports = [0u32; 3];
            step_in_place(&mut next, &mut free, numbers, leads, sets, &mut ports, item)
        }
        Kind::Open | Kind::End | Kind::Abandon | Kind::Publish => Err(Refusal::Malformed),
    }
}

// The items one after the other, until one is refused. Not by `map_err` and `?`: tried, and that a refused item ends the run, and a granted one takes it on, stayed open (`returns-in_err-map_err`,
// `loop-i-preserved`), since the clause of a closure comes between the item's answer and the run's.
fn run(
    next: u64,
    free: u32,
    numbers: &mut [u32; 32],
    leads: &mut [u32; 32],
    sets: &mut [u64; 512],
    requests: &[u8],
) -> Batched
    ensures { (ports : List ℕ) → Runs (lent next free numbers.old leads.old sets.old ports) (records requests.now) result numbers.new leads.new sets.new }
{
    let (items, _) = requests.as_chunks::<8>();
    for (i, item) in items.iter().enumerate() {
        if let Err(refusal) = step_item(next, free, numbers, leads, sets, *item) {
            return Err(BatchRefusal::Item(refusal, i));
        }
    }
    Ok(items.len())
}

// All of the requests or none, on a state that is lent part by part, as C lends it to `reedtangle_batch`. A refusal leaves every array as it was.
pub fn batch_in_place(
    next: u64,
    free: u32,
    numbers: &mut [u32; 32],
    leads: &mut [u32; 32],
    sets: &mut [u64; 512],
    requests: &[u8],
) -> Batched
    ensures { (ports : List ℕ) → Batches (lent next free numbers.old leads.old sets.old ports) requests.now result numbers.new leads.new sets.new }
{
    let bytes = requests.len();
    if bytes % 8 != 0 {
        return Err(BatchRefusal::Length);
    }
    if 512 < bytes {
        return Err(BatchRefusal::Length);
    }
    let leads_before = *leads;
    let sets_before = *sets;
    let batched = run(next, free, numbers, leads, sets, requests);
    if batched.is_err() {
        *leads = leads_before;
        *sets = sets_before;
    }
    batched
}

// ---- as hosts call it; the crate `batch_c` exports it to C and Rust

// `batch_in_place` on the state that the host keeps: code times 2^32 plus place.
pub fn reedtangle_batch(
    next: &mut u64,
    free: &mut u32,
    numbers: &mut [u32; 32],
    leads: &mut [u32; 32],
    sets: &mut [u64; 512],
    requests: &[u8],
) -> u64
    ensures { (ports : List ℕ) → (result ≡ packed (batch (lent next.old free.old numbers.old leads.old sets.old ports) requests.now))
        × (lent next.new free.new numbers.new leads.new sets.new ports ≡ batch_leaves (lent next.old free.old numbers.old leads.old sets.old ports) requests.now) }
{
    in_one(batch_in_place(*next, *free, numbers, leads, sets, requests))
}

// The checker of a proposed order. The log is read in `logs`.
#![tactic(auto)]

ghost use Rattle.std.specs.Prelude.{◌≡◌, false, List, [], ℕ, ◌≤◌, ◌<◌, MatchOption, MatchResult};
ghost use Rattle.std.proofs.Math.Option.{none, some};
ghost use Rattle.history.specs.Events.{History, kept, kept_steps};
ghost use Rattle.verdicts.specs.Verdicts.{first_bad, missing, first_backward, check};
ghost use Rattle.tallies.specs.Jobs.{Jobs, Blank};
ghost use Rattle.tallies.specs.Places.{Placed, stands_low};
ghost use Rattle.logs.specs.Logs.{Holds};
ghost use Rattle.checks.specs.Checks.{refusal_code, refusal_place, numbered, kept_as};
ghost use Rattle.checks.specs.declared.Refusal.TheVariants.{Log, Entry};

use codes::Told;
use logs::{ABANDONED, Fault, Table};

// What the checker answers: the count of kept jobs, or a refusal with its place.
pub type Checked = Result<usize, Refusal>;

// The log is faulty; or an entry of the order is, of a job missing the order's length; or the record runs backward. A missing job is an entry past the last: document 01 gives both
// code 15, and `check` tells them apart by the place alone.
#[derive(Clone, Copy, PartialEq, Eq)]
pub enum Refusal {
    Log(Fault),
    Entry(usize),
    Backward(usize),
}

impl From<Fault> for Refusal {
    ghost from_gives = { λ fault refusal. refusal ≡ Log fault };

    fn from(f: Fault) -> Refusal {
        Refusal::Log(f)
    }
}

impl Told for Refusal {
    ghost number = { refusal_code };

    ghost place_of = { refusal_place };

    fn code(self) -> u32 {
        match self {
            Refusal::Log(fault) => fault.code(),
            Refusal::Entry(_) => 15,
            Refusal::Backward(_) => 16,
        }
    }

    fn place(self) -> usize {
        match self {
            Refusal::Log(fault) => fault.place(),
            Refusal::Entry(place) => place,
            Refusal::Backward(place) => place,
        }
    }
}

// ---- the order

// The places of the order's jobs, up to the first bad entry, which is answered.
fn place_order(order: &[u32], table: &Table, placed: &mut [usize; 512]) -> Result<(), Refusal>
    ensures { (h : History) → Jobs h table.now.numbers table.now.states table.now.count → Blank placed.old
        → MatchResult result (λ _. (first_bad (kept h) [] 0 order.now ≡ none) × Placed h table.now.count order.now placed.new)
        (λ refusal. (bad : ℕ) × (refusal ≡ Entry bad) × (first_bad (kept h) [] 0 order.now ≡ some bad)) }
{
    for (i, job) in order.iter().enumerate() {
        let k = table.find(*job).ok_or(Refusal::Entry(i))?;
        if table.states[k] == ABANDONED || placed[k] != 0 {
            return Err(Refusal::Entry(i));
        }
        placed[k] = i + 1;
    }
    Ok(())
}

// How many of the first `count` jobs of a table are kept, of all 512 where `count` is more; none where a kept one has no place. It is told of two lists and any count, not of a `Table`, whose
// count is at most 512: `kept_as` says it for every count. A place counts from 1, and 0 is that of a job that has none: `Placed` and `Blank` of tallies read the list so.
pub fn all_placed(states: &[u8; 512], placed: &[usize; 512], count: usize) -> Option<usize>
    ensures { result ≡ kept_as states.now placed.now count }
{
    let jobs = count.min(512);
    let mut kept: usize = 0;
    for (state, place) in states[..jobs].iter().zip(&placed[..jobs]) {
        if *state != ABANDONED {
            if *place == 0 {
                return None;
            }
            kept += 1;
        }
    }
    Some(kept)
}

// ---- pairs that run backward

// Has a row that a step at this row looks at seen a place above that of its job? A row is a number: the list that it indexes has a place for each, and `looked` of tallies says it so.
// The same rows are joined in `join_before` of jobsets: a walk over them would have a closure with a contract of its own.
#[tactic(auto, unfolding(tallies::specs::Jobs::looked))]
fn stands_low(seen: &[usize; 770], row: usize, place: usize) -> bool
    requires { row < 770 }
    ensures { result ≡ stands_low seen.now row place }
{
    if row < 768 {
        let cell = row % 256;
        (256 <= row && place < seen[cell])
            || place < seen[cell + 256]
            || (row < 512 && place < seen[cell + 512])
    } else {
        row == 768 && place < seen[769]
    }
}

// The lowest record, of the first n, that is the later one of such a pair. How many records a log has is not in its table, where every entry past them is 0.
fn first_turned(table: &Table, n: usize, placed: &[usize; 512]) -> Option<usize>
    requires { n ≤ 4096 }
    ensures { (h : History) (order : List ℕ) → Holds h n table.now → Placed h table.now.count order placed.now
        → first_bad (kept h) [] 0 order ≡ none → missing (kept h) order ≡ false
        → MatchOption result (first_backward order [] (kept_steps h) ≡ none) (λ at. first_backward order [] (kept_steps h) ≡ some at) }
{
    let mut seen: [usize; 770] = [0; 770];
    for (i, step) in table.told[..n].iter().enumerate() {
        if *step != 0 {
            // What is told is taken apart where it is used, as in `lists` and `exporter`: two lines, and the laws of tallies are said of these terms.
            let job = ((*step - 1) / 770 % 512) as usize;
            let row = ((*step - 1) % 770) as usize;
            let place = placed[job];
            if table.states[job] != ABANDONED {
                if stands_low(&seen, row, place) {
                    return Some(i);
                }
                seen[row] = place.max(seen[row]);
            }
        }
    }
    None
}

// The verdict on a log and an order.
pub fn check_order(log: &[u8], order: &[u32]) -> Checked
    ensures { numbered result ≡ check log.now order.now }
{
    let mut table = Table::blank();
    logs::read_jobs(log, &mut table)?;
    let mut placed: [usize; 512] = [0; 512];
    place_order(order, &table, &mut placed)?;
    let kept = all_placed(&table.states, &placed, table.count).ok_or(Refusal::Entry(order.len()))?;
    match first_turned(&table, log.len() / 8, &placed) {
        Some(at) => Err(Refusal::Backward(at)),
        None => Ok(kept),
    }
}

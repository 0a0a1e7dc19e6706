// The lister of an order, and of the morning sheet.
#![tactic(auto)]

ghost use Rattle.std.specs.Prelude.{◌≡◌, Bool, true, false, not, ◌&&◌, List, ◌++◌, ℕ, ◌+◌, ◌*◌, ◌≤◌, ◌<◌, ltb, eqb, length, get_or, set, take, drop, Option, Some};
ghost use Rattle.graph.specs.Lists.{only};
ghost use Rattle.history.specs.Events.{History, opened, kept};
ghost use Rattle.verdicts.specs.Verdicts.{list_order};
ghost use Rattle.sheet.specs.Sheet.{at_rest, resting, list_sheet};
ghost use Rattle.tallies.specs.Jobs.{Jobs, Blank, Rises};
ghost use Rattle.tallies.specs.Places.{Lists};
ghost use Rattle.tallies.specs.Marks.{mark, Put, Struck, Preceded, KeptMarks, Settled, Only, In_word, Sorted};
ghost use Rattle.tallies.specs.MarkLaws.{Marking};
ghost use Rattle.logs.specs.Logs.{Holds};
ghost use Rattle.lists.specs.declared.Refusal.TheVariants.{Log};
ghost use Rattle.lists.specs.Answers.{code_of, place_of, answered};
ghost use Rattle.lists.specs.Sheets.{Asks, CommonOf, LedOn, Leading, Grown, Outside, Numbered, Picked, Whole};

use codes::Told;
use logs::{ABANDONED, ENDED, Fault, Table};

// ---- refusals

// Why a log is not listed: its fault, or no order keeps what it did, or the lent list has no room for as many entries as are told.
#[derive(Clone, Copy, PartialEq, Eq)]
pub enum Refusal {
    Log(Fault),
    NoOrder,
    Short(usize),
}

impl From<Fault> for Refusal {
    ghost from_gives = { λ fault refusal. refusal ≡ Log fault };

    fn from(fault: Fault) -> Refusal {
        Refusal::Log(fault)
    }
}

// As document 01 numbers them.
impl Told for Refusal {
    ghost number = { code_of };

    ghost place_of = { place_of };

    fn code(self) -> u32 {
        match self {
            Refusal::Log(fault) => fault.code(),
            Refusal::NoOrder => 17,
            Refusal::Short(_) => 18,
        }
    }

    fn place(self) -> usize {
        match self {
            Refusal::Log(fault) => fault.place(),
            Refusal::NoOrder => 0,
            Refusal::Short(jobs) => jobs,
        }
    }
}

// What a lister answers: how many entries are written.
pub type Listed = Result<usize, Refusal>;

// ---- marks of jobs, 64 to a word: 512 in eight words, and tables with a row of eight for each job

// A mark is one of a slice of words, and no method of a type: one function puts it into a set and into a table of sets alike, and the laws of tallies (`Put`, `in_row`) are said of words in a row. A job is its
// place in the table, a bare index below 512, as arrays and marks take it: a type for it would be taken apart at each use. To put and to strike are one line each, with an operator of its own.

// The mark is put.
fn put_mark(words: &mut [u64], at: usize)
    requires { at < 64 * length words.old }
    ensures { (length words.new ≡ length words.old) × Put at words.old words.new }
{
    words[at / 64] |= 1u64 << (at % 64);
}

// The mark is struck.
fn strike_mark(words: &mut [u64], at: usize)
    requires { at < 64 * length words.old }
    ensures { (length words.new ≡ length words.old) × Struck at words.old words.new }
{
    words[at / 64] &= !(1u64 << (at % 64));
}

// The highest mark that the row of `rows` and the set have both, where there is one: the job that is placed last of those waited for, mostly, as the lowest go first.
fn common_mark(rows: &[u64; 4096], row: usize, words: &[u64; 8]) -> Option<usize>
    requires { row < 512 }
    ensures { CommonOf rows.now row words.now result }
{
    let all = &words[..];
    let theirs = &rows[..];
    let from = row * 8;
    for w in (0..8).rev() {
        let both = theirs[from + w] & all[w];
        if both != 0 {
            return Some(w * 64 + (63 - both.leading_zeros() as usize));
        }
    }
    None
}

// ---- who precedes whom

// The predecessors of each job, from the first n records: a table does not say how many its log has.
fn gather(table: &Table, n: usize, preds: &mut [u64; 4096])
    requires { n ≤ 4096 }
    ensures { (h : History) → Holds h n table.now → Blank preds.old → Preceded h table.now.count preds.new }
{
    let mut seen: [u64; 6160] = [0; 6160];
    for step in &table.told[..n] {
        if *step != 0 {
            // What is told is taken apart where it is used, as in `checks` and `exporter`: two lines, and the laws of tallies are said of these terms.
            let job = ((*step - 1) / 770 % 512) as usize;
            let row = ((*step - 1) % 770) as usize;
            if table.states[job] != ABANDONED {
                jobsets::join_before(preds, job, &seen, row);
                put_mark(&mut seen, row * 512 + job);
                strike_mark(preds, job * 512 + job);
            }
        }
    }
}

// The jobs that stand as asked for are put into the set, and how many they are.
fn mark_where<F: Fn(u8) -> bool>(table: &Table, asked: F, marks: &mut [u64; 8]) -> usize
    requires { F.IsAlwaysCallable asked }
    ensures { let t = table.now in (result ≤ 512) × ((p : ℕ → Bool) → Asks F.post asked p → Blank marks.old
        → (result ≡ length (only p (take t.count t.states))) × Marking (λ i. p (get_or t.states i 0)) t.count marks.new) }
{
    let mut many: usize = 0;
    for (i, state) in table.states[..table.count].iter().enumerate() {
        if asked(*state) {
            put_mark(marks, i);
            many += 1;
        }
    }
    many
}

// The marks of the kept jobs, and how many they are.
fn keep(table: &Table, left: &mut [u64; 8]) -> usize
    ensures { let t = table.now in (result ≤ 512) × ((h : History) → Jobs h t.numbers t.states t.count → Blank left.old → (result ≡ length (kept h)) × KeptMarks h t.count left.new) }
{
    mark_where(table, |state| state != ABANDONED, left)
}

// ---- the lowest-first order

// The jobs that are left, sorted: those that no job left precedes are ready, each other one waits for a job that is left and precedes it. Row by row, `waiting` has the jobs that wait
// for a job. Who precedes whom, `preds`, is not told here: no job that is placed changes it.
#[derive(Drop)]
struct Queue {
    left: [u64; 8],
    ready: [u64; 8],
    waiting: [u64; 4096],
}

impl Queue {
    // A job that is left becomes ready, or waits for a predecessor that is left. It stays a call: with its eight words in the loops over a row, an empty word, as most are, costs twice as much.
    #[inline(never)]
    fn settle(&mut self, preds: &[u64; 4096], job: usize)
        requires { job < 512 }
        ensures { (self.new.left ≡ self.old.left) × Settled (Only job) preds.now self.old.left self.old.ready self.old.waiting self.new.ready self.new.waiting }
    {
        match common_mark(preds, job, &self.left) {
            None => put_mark(&mut self.ready, job),
            Some(for_whom) => put_mark(&mut self.waiting, for_whom * 512 + job),
        }
    }

    // The same of each job of a word of marks, the first of which is that of job `base`.
    fn settle_word(&mut self, preds: &[u64; 4096], word: u64, base: usize)
        requires { base + 64 ≤ 512 }
        ensures { (self.new.left ≡ self.old.left)
            × Settled (In_word base word) preds.now self.old.left self.old.ready self.old.waiting self.new.ready self.new.waiting }
    {
        // As `Rows` of the crate `rows` goes over slots, by the lowest mark left; here a mark is a bare number and no slot.
        let mut todo = word;
        while todo != 0 {
            let job = base + todo.trailing_zeros() as usize;
            todo &= todo - 1;
            self.settle(preds, job);
        }
    }

    // The first sorting of the jobs that are left.
    fn sort(&mut self, preds: &[u64; 4096])
        ensures { (self.new.left ≡ self.old.left) × (Blank self.old.ready → Blank self.old.waiting → Sorted preds.now self.new.left self.new.ready self.new.waiting) }
    {
        for w in 0..8 {
            self.settle_word(preds, self.left[w], w * 64);
        }
    }

    // A ready job is placed: it is no longer left, and those that waited for it become ready or wait for another.
    fn place(&mut self, preds: &[u64; 4096], job: usize)
        requires { job < 512 }
        ensures { Sorted preds.now self.old.left self.old.ready self.old.waiting → mark self.old.ready job ≡ true
            → Struck job self.old.left self.new.left × Sorted preds.now self.new.left self.new.ready self.new.waiting }
    {
        strike_mark(&mut self.left, job);
        strike_mark(&mut self.ready, job);
        for w in 0..8 {
            let word = self.waiting[job * 8 + w];
            self.settle_word(preds, word, w * 64);
        }
    }
}

// A job is the next of the order, after n others: its number, and its place, which counts from 1. 0 is the place of a job that has none: `Placed` of tallies and `all_placed` of
// checks read the list so.
fn note(table: &Table, order: &mut [u32; 512], placed: &mut [usize; 512], job: usize, n: usize)
    requires { (job < 512) × (n < 512) }
    ensures { (length order.old ≡ 512) × (length placed.old ≡ 512) × (order.new ≡ set order.old n (get_or table.now.numbers job 0))
        × (placed.new ≡ set placed.old job (n + 1)) }
{
    let entries = &mut order[..];
    let places = &mut placed[..];
    entries[n] = table.numbers[job];
    places[job] = n + 1;
}

// The order of so many jobs, the lowest ready one first, and the places of those that could be placed. How many are left is counted once, in `keep`. Here and below `preds` and the table
// stand apart: the history that both are of is the contract's, and no field can hold it.
fn list_jobs(
    preds: &[u64; 4096],
    table: &Table,
    jobs: usize,
    left: &[u64; 8],
    order: &mut [u32; 512],
    placed: &mut [usize; 512],
)
    requires { jobs ≤ 512 }
    ensures { let t = table.now in (h : History) → Jobs h t.numbers t.states t.count → Preceded h t.count preds.now → KeptMarks h t.count left.now → jobs ≡ length (kept h)
        → Blank placed.old → Lists h t.count order.new placed.new }
{
    let mut queue = Queue {
        left: *left,
        ready: [0; 8],
        waiting: [0; 4096],
    };
    queue.sort(preds);
    for n in 0..jobs {
        let Some(job) = jobsets::lowest_mark(&queue.ready) else {
            return;
        };
        note(table, order, placed, job, n);
        queue.place(preds, job);
    }
}

// The whole order of so many kept jobs, where there is one.
fn list_all(
    preds: &[u64; 4096],
    table: &Table,
    jobs: usize,
    left: &[u64; 8],
    order: &mut [u32; 512],
) -> Result<(), Refusal>
    requires { jobs ≤ 512 }
    ensures { let t = table.now in (h : History) → Jobs h t.numbers t.states t.count → Preceded h t.count preds.now → KeptMarks h t.count left.now → jobs ≡ length (kept h)
        → Whole h order.new result }
{
    let mut placed: [usize; 512] = [0; 512];
    list_jobs(preds, table, jobs, left, order, &mut placed);
    checks::all_placed(&table.states, &placed, table.count).ok_or(Refusal::NoOrder)?;
    Ok(())
}

// The first n entries of the order, which has room for 512, go to the lent list; the entries past them stay. Both callers would have to show of a slice of n that it is n long.
fn copy_out(order: &[u32; 512], n: usize, out: &mut [u32])
    requires { (n ≤ 512) × (n ≤ length out.old) }
    ensures { out.new ≡ take n order.now ++ drop n out.old }
{
    out[..n].copy_from_slice(&order[..n]);
}

// The lowest-first order of a log, in the lent list. On a refusal the list stays.
pub fn list_order(log: &[u8], out: &mut [u32]) -> Listed
    ensures { answered result out.new ≡ list_order log.now out.old }
{
    let mut table = Table::blank();
    logs::read_jobs(log, &mut table)?;
    let mut left: [u64; 8] = [0; 8];
    let kept = keep(&table, &mut left);
    if out.len() < kept {
        return Err(Refusal::Short(kept));
    }
    // Behind the test of the room: who asks for the count alone does not pay for this.
    let mut preds: [u64; 4096] = [0; 4096];
    gather(&table, log.len() / 8, &mut preds);
    let mut order: [u32; 512] = [0; 512];
    list_all(&preds, &table, kept, &left, &mut order)?;
    copy_out(&order, kept, out);
    Ok(kept)
}

// ---- the morning sheet

// Is the mark put?
fn has_mark(words: &[u64; 8], at: usize) -> bool
    requires { at < 512 }
    ensures { result ≡ mark words.now at }
{
    let all = &words[..];
    all[at / 64] & (1u64 << (at % 64)) != 0
}

// The marks of the open jobs.
fn mark_open(table: &Table, moving: &mut [u64; 8])
    ensures { Blank moving.old → Marking (λ i. ltb (get_or table.now.states i 0) 3) table.now.count moving.new }
{
    mark_where(table, |state| state < ENDED, moving);
}

// A job that is not in the set, and that a job of the set precedes, is put into it. Was it?
fn lead_on(preds: &[u64; 4096], moving: &mut [u64; 8], job: usize) -> bool
    requires { job < 512 }
    ensures { LedOn preds.now job moving.old moving.new result }
{
    if has_mark(moving, job) {
        return false;
    }
    if common_mark(preds, job, moving).is_none() {
        return false;
    }
    put_mark(moving, job);
    true
}

// The same of each of so many jobs, one after the other: of a table no more than the count is looked at, and `Leading` goes by it. Was one of them?
// `Leading` is said of `preds`, the count and the set, so that these stay three.
fn lead_all(preds: &[u64; 4096], count: usize, moving: &mut [u64; 8]) -> bool
    requires { count ≤ 512 }
    ensures { Leading preds.now count count moving.old moving.new result × Grown moving.old moving.new result }
{
    let mut grown = false;
    for i in 0..count {
        grown |= lead_on(preds, moving, i);
    }
    grown
}

// The same until no job is left that would be put into the set.
fn close(preds: &[u64; 4096], count: usize, moving: &mut [u64; 8])
    requires { count ≤ 512 }
    ensures { Leading preds.now count count moving.old moving.new false }
{
    while lead_all(preds, count, moving) {}
}

// Is the job kept, and not in the set?
fn outside(table: &Table, moving: &[u64; 8], job: usize) -> bool
    requires { job < 512 }
    ensures { result ≡ (not (eqb (get_or table.now.states job 0) 4) && not (mark moving.now job)) }
{
    table.states[job] != ABANDONED && !has_mark(moving, job)
}

// How many jobs are. By hand: a closure in `filter` would need a contract of its own, that its job is one of the 512.
fn count_outside(table: &Table, moving: &[u64; 8]) -> usize
    ensures { let t = table.now in (result ≤ 512) × ((p : ℕ → Bool) (l : List ℕ) → length l ≡ t.count → Outside p l t.count t.states moving.now → result ≡ length (only p l)) }
{
    let mut others: usize = 0;
    for i in 0..table.count {
        if outside(table, moving, i) {
            others += 1;
        }
    }
    others
}

// The jobs that are open or that an open one leads to, and how many of the others are kept: those at rest.
fn find_moving(preds: &[u64; 4096], table: &Table, moving: &mut [u64; 8]) -> usize
    ensures { let t = table.now in (result ≤ 512) × ((h : History) → Jobs h t.numbers t.states t.count → Preceded h t.count preds.now → Blank moving.old
        → (result ≡ length (resting h)) × Outside (at_rest h) (opened h) t.count t.states moving.new) }
{
    mark_open(table, moving);
    close(preds, table.count, moving);
    count_outside(table, moving)
}

// Is the job of this number not in the set?
fn rests(table: &Table, moving: &[u64; 8], job: u32) -> bool
    ensures { let t = table.now in Rises t.count t.numbers → Numbered t.numbers t.count job
        → (i : ℕ) × (i < t.count) × (get_or t.numbers i 0 ≡ job) × (result ≡ not (mark moving.now i)) }
{
    match table.find(job) {
        Some(i) => !has_mark(moving, i),
        None => false,
    }
}

// The entries of the order, of so many, whose jobs are not in the set. The order has room for 512, and `Picked` goes by how many it has.
fn pick(order: &[u32; 512], kept: usize, table: &Table, moving: &[u64; 8], sheet: &mut [u32; 512])
    requires { kept ≤ 512 }
    ensures { let t = table.now in (p : ℕ → Bool) → Rises t.count t.numbers → ((k : ℕ) → k < kept → Numbered t.numbers t.count (get_or order.now k 0))
        → ((k i : ℕ) → k < kept → i < t.count → get_or t.numbers i 0 ≡ get_or order.now k 0 → p (get_or order.now k 0) ≡ not (mark moving.now i))
        → Picked p order.now kept sheet.new }
{
    let picked = &mut sheet[..];
    // Counted by hand: an entry that rests goes to the next free place, and `Picked` goes by how many are put.
    let mut n: usize = 0;
    for entry in &order[..kept] {
        let job = *entry;
        if rests(table, moving, job) {
            picked[n] = job;
            n += 1;
        }
    }
}

// The morning sheet of a log, in the lent list. On a refusal the list stays.
pub fn list_sheet(log: &[u8], out: &mut [u32]) -> Listed
    ensures { answered result out.new ≡ list_sheet log.now out.old }
{
    let mut table = Table::blank();
    logs::read_jobs(log, &mut table)?;
    let records = log.len() / 8;
    let mut preds: [u64; 4096] = [0; 4096];
    gather(&table, records, &mut preds);
    let mut moving: [u64; 8] = [0; 8];
    let rest = find_moving(&preds, &table, &mut moving);
    if out.len() < rest {
        return Err(Refusal::Short(rest));
    }
    let mut left: [u64; 8] = [0; 8];
    let kept = keep(&table, &mut left);
    let mut order: [u32; 512] = [0; 512];
    list_all(&preds, &table, kept, &left, &mut order)?;
    let mut sheet: [u32; 512] = [0; 512];
    pick(&order, kept, &table, &moving, &mut sheet);
    copy_out(&sheet, rest, out);
    Ok(rest)
}

// The rows: what is looked at and changed in the rows of a state, on the arrays that are lent. Who comes to lead to a slot at its step (`touching`), the step
// (`step_slot`), the writes of a cell set (`write_set`); a slot opened (`open_slot`), ended (`end_slot`) and left (`leave_slot`), both by their parts (`leading`, `hand_on`,
// `vacate`), and whether it has altered a cell (`has_altered`). Any number is taken as a slot, modulo 32. The crate `slots` has the requests over them, with the tests that they begin with and the answers.
//
// The arrays travel side by side, since the C interface lends them one by one. In a struct of references each contract would need a clause more for each of them, that
// it is still the array that was lent.
#![tactic(auto)]

ghost use Rattle.std.specs.Prelude.{◌≡◌, ◌≢◌, false, ◌&&◌, cond, ◌+◌, ◌-◌, ◌*◌, ◌/◌, ◌%◌, ◌^◌, ◌≤◌, ◌<◌, leb, eqb, get_or, take, drop, MatchOption};
ghost use Rattle.std.specs.Int.Bits.{bit_or, bit_and};
ghost use Rattle.std.specs.Int.Count.{count_trailing_zeros};
ghost use Rattle.std.specs.Iterator.{at_most};
ghost use Rattle.marks.specs.Marks.{bit, mask_of, tab};
ghost use Rattle.history.specs.Events.{write};
ghost use Rattle.held.specs.Held.{past_at, meets, has_past, altered, ended_at, abandoned_at};
ghost use Rattle.late.specs.Late.{named};
ghost use Rattle.rows.specs.Rows.{rows_of, links_of, sets_only, kind_of, Opens, Writes, Leaves, leads_to, met, touches, meets_some, theirs, start_of, first_word, second_word, shown_word, gain, put, struck, gained, blanked, folded, put_own, marked_own, joined_own};

use cells::{Cell, CellSet};
use std::array;

// A row of the state, 0 to 31. Never a job number.
#[derive(Clone, Copy, Debug, PartialEq, Eq)]
pub struct Slot(pub u32);

// What a step does to its cell: it uses what is there, alters it, or both.
#[derive(Clone, Copy, Debug, PartialEq, Eq)]
pub enum Deed {
    Read,
    Write,
    Add,
}

// In a set of its own for each: the cells that are used, and those that are altered.
#[derive(Clone, Copy)]
enum Aspect {
    Used,
    Altered,
}

impl Aspect {
    // Where its set begins in a half row, own or past.
    fn start(self) -> usize
        ensures place { result ≡ start_of self }
        ensures small { result ≤ 4 }
    {
        match self {
            Aspect::Used => 0,
            Aspect::Altered => 4,
        }
    }
}

// ---- rows and masks of slots

// A slot that is a row: any number, modulo 32.
#[derive(Clone, Copy)]
struct Row {
    at: u32,
    ghost inside: { at < 32 },
}

impl From<Slot> for Row {
    ghost from_gives = { λ slot row. row.at ≡ slot.0 % 32 };

    fn from(slot: Slot) -> Row {
        Row { at: slot.0 % 32 }
    }
}

impl Row {
    // Its mark in a mask of slots.
    fn mark(self) -> u32
        ensures { result ≡ 2 ^ self.at }
    {
        1u32 << self.at
    }

    // Where the row stands in an array of 32.
    fn index(self) -> usize
        ensures { result ≡ self.at }
    {
        self.at as usize
    }

    // Where its words begin among the sets.
    fn start(self) -> usize
        ensures { result ≡ self.at * 16 }
    {
        self.index() * 16
    }
}

// The rows of a mask of slots, the lowest first.
#[derive(Drop)]
struct Rows {
    todo: u32,
}

impl Iterator for Rows {
    type Item = Row;

    ghost next_gives = { λ s r t. MatchOption r (s.todo ≡ 0) (λ row. (s.todo ≢ 0) × (row.at ≡ count_trailing_zeros 32 s.todo) × (t.todo ≡ bit_and s.todo (s.todo - 1))) };

    ghost remaining = { λ s. at_most s.todo };

    fn next(&mut self) -> Option<Row> {
        if self.todo == 0 {
            return None;
        }
        let at = self.todo.trailing_zeros();
        self.todo &= self.todo - 1;
        Some(Row { at })
    }
}

// The other open slots whose rows lead to the slot: who takes over at its end.
pub fn leading(free: u32, leads: &[u32; 32], slot: Slot) -> u32
    ensures { result ≡ mask_of 32 (leads_to free leads.now (slot.0 % 32)) }
{
    let own = Row::from(slot);
    let mut found: u32 = 0;
    for (i, row) in leads.iter().enumerate() {
        found |= ((*row >> own.at) & 1) << i;
    }
    found & !own.mark() & !free
}

// ---- clashes

// A step of some slot, on a cell.
#[derive(Clone, Copy)]
struct Step {
    deed: Deed,
    cell: Cell,
}

impl Step {
    // Which word of a half row, own or past, it looks at: one that uses looks at the altered cells, an add at the used.
    fn first(self) -> usize
        ensures { result ≡ first_word self.deed self.cell.0 }
    {
        match self.deed {
            Deed::Read | Deed::Write => Aspect::Altered.start() + self.cell.place(),
            Deed::Add => self.cell.place(),
        }
    }

    // Which word it looks at beside that: a write looks at the used cells too.
    fn second(self) -> Option<usize>
        ensures { result ≡ second_word self.deed self.cell.0 }
    {
        match self.deed {
            Deed::Read | Deed::Add => None,
            Deed::Write => Some(self.cell.place()),
        }
    }

    // The words of the half row that it looks at, in one.
    fn shown(self, sets: &[u64; 512], half: usize) -> u64
        requires { half ≤ 504 }
        ensures { result ≡ shown_word sets.now half (first_word self.deed self.cell.0) (second_word self.deed self.cell.0) }
    {
        let first = sets[half + self.first()];
        match self.second() {
            None => first,
            Some(second) => first | sets[half + second],
        }
    }

    // Does the row clash with it, own and past together? It is no step of that row.
    fn meets(self, sets: &[u64; 512], row: Row) -> bool
        ensures { result ≡ met sets.now (kind_of self.deed) self.cell.0 row.at }
    {
        let own = self.shown(sets, row.start());
        let past = self.shown(sets, row.start() + 8);
        (own | past) & self.cell.mark() != 0
    }

    // Does the row's past alone?
    fn meets_past(self, sets: &[u64; 512], row: Row) -> bool
        ensures { result ≡ meets (past_at (sets_only sets.now) row.at) (kind_of self.deed) self.cell.0 }
    {
        self.shown(sets, row.start() + 8) & self.cell.mark() != 0
    }
}

// The rows below `to` that clash with a step, from those below `from`.
fn clashing_rows(sets: &[u64; 512], below: u32, from: u32, to: u32, step: Step) -> u32
    requires { (from ≤ to) × (to ≤ 32) × (below ≡ mask_of from (met sets.now (kind_of step.deed) step.cell.0)) }
    ensures { result ≡ mask_of to (met sets.now (kind_of step.deed) step.cell.0) }
{
    let mut found = below;
    for at in from..to {
        let row = Row { at };
        if step.meets(sets, row) {
            found |= row.mark();
        }
    }
    found
}

// Those of the slots that clash so. Slots are taken from the lowest up, so eight rows at a time are looked at, as far as the slots go.
fn clashing_among(slots: u32, sets: &[u64; 512], step: Step) -> u32
    ensures { result ≡ mask_of 32 (λ i. bit slots i && met sets.now (kind_of step.deed) step.cell.0 i) }
{
    let eight = clashing_rows(sets, 0, 0, 8, step);
    if slots < 256 {
        return eight & slots;
    }
    let sixteen = clashing_rows(sets, eight, 8, 16, step);
    if slots < 65536 {
        return sixteen & slots;
    }
    let most = clashing_rows(sets, sixteen, 16, 24, step);
    if slots < 16777216 {
        return most & slots;
    }
    clashing_rows(sets, most, 24, 32, step) & slots
}

// The open slots that come to lead to the asking slot at its step.
pub fn touching(free: u32, sets: &[u64; 512], slot: Slot, deed: Deed, cell: Cell) -> u32
    ensures { result ≡ mask_of 32 (touches free sets.now (kind_of deed) (slot.0 % 32) cell.0) }
{
    let own = Row::from(slot);
    let me = own.mark();
    let step = Step { deed, cell };
    let others = !free & !me;
    let found = clashing_among(others, sets, step);
    if step.meets_past(sets, own) {
        return (found | me) & !free;
    }
    found & !free
}

// Does the row come to lead to the slot when that writes the cells: is some of them in its past, or, in another row, in its own?
fn meets_some(sets: &[u64; 512], row: Row, slot: Row, cells: CellSet) -> bool
    ensures { result ≡ meets_some sets.now slot.at cells.words row.at }
{
    let at = row.start();
    let past = load(sets, at + 8).union(load(sets, at + 12));
    if row.at == slot.at {
        return past.overlaps(cells);
    }
    past.union(load(sets, at).union(load(sets, at + 4)))
        .overlaps(cells)
}

// The open slots that do.
fn meeting_some(free: u32, sets: &[u64; 512], slot: Row, cells: CellSet) -> u32
    ensures { result ≡ mask_of 32 (λ i. bit (2 ^ 32 - 1 - free) i && meets_some sets.now slot.at cells.words i) }
{
    let mut found: u32 = 0;
    for row in (Rows { todo: !free }) {
        if meets_some(sets, row, slot, cells) {
            found |= row.mark();
        }
    }
    found
}

// ---- rows changed

// The rows of the mask come to lead to the slots of the marks.
fn gain_leads(leads: &mut [u32; 32], from: u32, marks: u32)
    ensures { leads.new ≡ gained leads.old (bit from) marks }
{
    for row in (Rows { todo: from }) {
        leads[row.index()] |= marks;
    }
}

// The slots of the mask come to lead to the slot.
fn lead_to(leads: &mut [u32; 32], from: u32, slot: Row)
    ensures { leads.new ≡ gained leads.old (bit from) (2 ^ slot.at) }
{
    gain_leads(leads, from, slot.mark());
}

// No row leads to the slot, and its own row leads nowhere.
fn strike(leads: &mut [u32; 32], slot: Row)
    ensures { leads.new ≡ struck leads.old slot.at }
{
    let others = !slot.mark();
    for row in leads.iter_mut() {
        *row &= others;
    }
    leads[slot.index()] = 0;
}

// The slot's sets are empty.
fn blank(sets: &mut [u64; 512], slot: Row)
    ensures { sets.new ≡ blanked sets.old slot.at }
{
    let at = slot.start();
    sets[at..at + 16].fill(0);
}

// The four words from a place on, as a set. A place is a number: every caller adds 0, 4, 8 or 12 to the start of a row, and a type for the sum would say the same in each.
fn load(sets: &[u64; 512], at: usize) -> CellSet
    requires { at ≤ 508 }
    ensures { result.words ≡ take 4 (drop at sets.now) }
{
    CellSet {
        words: array::from_fn(|i| sets[at + i]),
    }
}

// A set is put into the four words from a place on.
fn store(sets: &mut [u64; 512], at: usize, set: CellSet)
    requires { at ≤ 508 }
    ensures { sets.new ≡ tab 512 (λ w. cond (leb at w && leb w (at + 3)) (get_or set.words (w - at) 0) (get_or sets.old w 0)) }
{
    // Word by word: `copy_from_slice` asks first whether the two overlap. As a slice, whose length the proof knows within the loop.
    let all = &mut sets[..];
    for (i, word) in set.words.iter().enumerate() {
        all[at + i] = *word;
    }
}

// A set of the slot's own gains the cell.
fn put_own(sets: &mut [u64; 512], slot: Row, aspect: Aspect, cell: Cell)
    ensures { sets.new ≡ put_own sets.old slot.at (start_of aspect) cell.0 }
{
    let at = slot.start() + (aspect.start() + cell.place());
    sets[at] |= cell.mark();
}

// The slot's own gains the cell by a deed: the used cells by a read, the altered by an add, both by a write.
fn mark_own(sets: &mut [u64; 512], slot: Row, deed: Deed, cell: Cell)
    ensures { sets.new ≡ marked_own sets.old slot.at (kind_of deed) cell.0 }
{
    match deed {
        Deed::Read => put_own(sets, slot, Aspect::Used, cell),
        Deed::Write => {
            put_own(sets, slot, Aspect::Used, cell);
            put_own(sets, slot, Aspect::Altered, cell);
        }
        Deed::Add => put_own(sets, slot, Aspect::Altered, cell),
    }
}

// The slot's own gains the cells by writes of them: the used and the altered.
fn join_own(sets: &mut [u64; 512], slot: Row, cells: CellSet)
    ensures { sets.new ≡ joined_own sets.old slot.at cells.words }
{
    let at = slot.start();
    let used = load(sets, at).union(cells);
    store(sets, at, used);
    let altered = load(sets, at + 4).union(cells);
    store(sets, at + 4, altered);
}

// The four words from a place on gain those from two other places on.
fn gain_set(sets: &mut [u64; 512], to: usize, one: usize, two: usize)
    requires { (to ≤ 508) × (one ≤ 508) × (two ≤ 508) }
    ensures { sets.new ≡ tab 512 (gain sets.old to one two) }
{
    let all = load(sets, to).union(load(sets, one).union(load(sets, two)));
    store(sets, to, all);
}

// A row's past gains own and past of the slot, another one.
fn take_over(sets: &mut [u64; 512], row: Row, slot: Row)
    requires { row.at ≢ slot.at }
    ensures { sets.new ≡ folded sets.old (λ k. eqb k row.at) slot.at }
{
    let to = row.start() + 8;
    let from = slot.start();
    gain_set(sets, to, from, from + 8);
    gain_set(sets, to + 4, from + 4, from + 12);
}

// Every slot of the mask, the slot not among them, takes over the slot's sets.
fn fold_sets(sets: &mut [u64; 512], from: u32, slot: Row)
    requires { bit from slot.at ≡ false }
    ensures { sets.new ≡ folded sets.old (bit from) slot.at }
{
    for row in (Rows { todo: from }) {
        take_over(sets, row, slot);
    }
}

// Every slot of the mask, the slot not among them, takes over the slot's leads to open slots.
fn fold_leads(free: u32, leads: &mut [u32; 32], from: u32, slot: Row)
    requires { bit from slot.at ≡ false }
    ensures { leads.new ≡ gained leads.old (bit from) (theirs free leads.old slot.at) }
{
    let theirs = leads[slot.index()] & !free;
    gain_leads(leads, from, theirs);
}

// ---- who has a past

// Has the row a past, of used or of altered cells?
fn has_past(sets: &[u64; 512], row: Row) -> bool
    ensures { result ≡ has_past (sets_only sets.now) row.at }
{
    let at = row.start();
    !load(sets, at + 8).union(load(sets, at + 12)).is_empty()
}

// Those of the slots that have a past. It goes as `meeting_some` does, by another test: one function over the test would say it twice, in the call and in its clause.
fn having_past(slots: u32, sets: &[u64; 512]) -> u32
    ensures { result ≡ mask_of 32 (λ i. bit slots i && has_past (sets_only sets.now) i) }
{
    let mut found: u32 = 0;
    for row in (Rows { todo: slots }) {
        if has_past(sets, row) {
            found |= row.mark();
        }
    }
    found
}

// ---- a slot opened, its steps, its end

// The slot is open, with a blank row. Who is open and has a past comes before its new job: some job that it leads to has ended.
pub fn open_slot(free: u32, leads: &mut [u32; 32], sets: &mut [u64; 512], slot: Slot) -> u32
    ensures { Opens (links_of free leads.old sets.old) (slot.0 % 32) result leads.new sets.new }
{
    let own = Row::from(slot);
    let me = own.mark();
    let leaders = having_past(!(free | me), sets);
    strike(leads, own);
    lead_to(leads, leaders, own);
    blank(sets, own);
    free & !me
}

// A step of the slot: the slots of the mask come to lead to it, and its own gains the cell.
pub fn step_slot(
    leads: &mut [u32; 32],
    sets: &mut [u64; 512],
    slot: Slot,
    deed: Deed,
    cell: Cell,
    from: u32,
)
    ensures { (leads.new ≡ gained leads.old (bit from) (2 ^ (slot.0 % 32))) × (sets.new ≡ marked_own sets.old (slot.0 % 32) (kind_of deed) cell.0) }
{
    let own = Row::from(slot);
    lead_to(leads, from, own);
    mark_own(sets, own, deed, cell);
}

// The slot's writes of a set of cells: are they refused? Who would come to lead to the slot is gathered before anything is changed: where the slot itself is among
// them, or leads to itself already, every array stays as it was. A bool: the refusal is for `slots` to name, and `Writes` says whether there is one.
pub fn write_set(
    free: u32,
    leads: &mut [u32; 32],
    sets: &mut [u64; 512],
    slot: Slot,
    cells: CellSet,
) -> bool
    ensures { Writes (links_of free leads.old sets.old) (slot.0 % 32) (named cells.words) result leads.new sets.new }
{
    let own = Row::from(slot);
    let meeting = meeting_some(free, sets, own, cells);
    if (leads[own.index()] | meeting) & own.mark() != 0 {
        return true;
    }
    lead_to(leads, meeting, own);
    join_own(sets, own, cells);
    false
}

// Has the slot altered a cell itself?
pub fn has_altered(sets: &[u64; 512], slot: Slot) -> bool
    ensures { result ≡ altered (sets_only sets.now) (slot.0 % 32) }
{
    !load(sets, Row::from(slot).start() + 4).is_empty()
}

// The slot's row is blank and no row leads to it, and the slots of the mask have taken over what it held: its sets, and its leads to open slots. Whether the slot
// itself is in the mask is all the same.
pub fn hand_on(free: u32, leads: &mut [u32; 32], sets: &mut [u64; 512], from: u32, slot: Slot)
    ensures { Leaves (links_of free leads.old sets.old) (bit from) (slot.0 % 32) leads.new sets.new }
{
    let own = Row::from(slot);
    let others = from & !own.mark();
    fold_sets(sets, others, own);
    fold_leads(free, leads, others, own);
    strike(leads, own);
    blank(sets, own);
}

// The slot has no number and is free.
pub fn vacate(free: u32, numbers: &mut [u32; 32], slot: Slot) -> u32
    ensures { (result ≡ bit_or free (2 ^ (slot.0 % 32))) × (numbers.new ≡ put numbers.old (slot.0 % 32) 0) }
{
    let own = Row::from(slot);
    numbers[own.index()] = 0;
    free | own.mark()
}

// The slot is free: its row blank, and no row leads to it. None takes over. As `end_slot` but for who does: the two lines that they share are one call each.
pub fn leave_slot(
    free: u32,
    numbers: &mut [u32; 32],
    leads: &mut [u32; 32],
    sets: &mut [u64; 512],
    slot: Slot,
) -> u32
    ensures { rows_of result numbers.new leads.new sets.new ≡ abandoned_at (rows_of free numbers.old leads.old sets.old) (slot.0 % 32) }
{
    hand_on(free, leads, sets, 0, slot);
    vacate(free, numbers, slot)
}

// The slot ends: the other open rows that lead to it take over, and it is left.
pub fn end_slot(
    free: u32,
    numbers: &mut [u32; 32],
    leads: &mut [u32; 32],
    sets: &mut [u64; 512],
    slot: Slot,
) -> u32
    ensures { rows_of result numbers.new leads.new sets.new ≡ ended_at (rows_of free numbers.old leads.old sets.old) (slot.0 % 32) }
{
    let from = leading(free, leads, slot);
    hand_on(free, leads, sets, from, slot);
    vacate(free, numbers, slot)
}

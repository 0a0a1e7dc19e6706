// Batches against the same requests one by one.
//
// A batch is given to the proved code on one copy of a state, and its requests one by one to the arbiter on another; code, place and the whole state after it are
// compared. The states come from single requests between the batches, and some are of any content. A line for each shape of batches has how many there were, how many got
// each code, how many were refused after an item was granted, how many adds the granted ones had, and how many differed. What is proved here is that the program is safe and ends.
#![tactic(auto)]

ghost use Rattle.std.specs.Prelude.{◌<◌, ◌≤◌};

use arbiter::{JobNumber, Replied, State};
use batch::Batched;
use codes::Told;

// ---- numbers from a seed

// One number of a generator, and the generator from there on.
#[derive(Clone, Copy)]
struct Random(u64);

impl Random {
    // The next number, as `blocked` has it, which shares no code: a crate for the three lines would be longer than they are.
    fn shifted(self) -> Random {
        let x = self.0 ^ (self.0 << 13);
        let y = x ^ (x >> 7);
        Random(y ^ (y << 17))
    }

    // The number from which another run of numbers starts.
    fn apart(self) -> Random {
        Random(self.0.wrapping_add(0x9e37_79b9_7f4a_7c15)).shifted()
    }

    // A number below n: ten bits of this one, at one of six places.
    fn below(self, n: u64, place: u64) -> u64
        requires some { 0 < n }
        requires place { place < 6 }
        ensures { result < n }
    {
        (self.0 >> (place * 10)) % 1024 % n
    }

    // One in so many times; never where that is 0.
    fn one_in(self, n: u64, place: u64) -> bool
        requires { place < 6 }
    {
        n != 0 && self.below(n, place) == 0
    }

    // A number of which about one bit in 64 is set.
    fn sparse(self) -> u64 {
        self.take(5).fold(self.0, |bits, r| bits & r.0)
    }
}

impl Iterator for Random {
    type Item = Random;

    fn next(&mut self) -> Option<Random> {
        *self = self.shifted();
        Some(*self)
    }
}

// ---- requests

// Its own: as many as are asked here, with the numbers of the wire, which the Kind of `slots` is only read from.
#[derive(Clone, Copy)]
enum Kind {
    Open = 1,
    Read = 2,
    Write = 3,
    End = 4,
    Abandon = 5,
    Add = 7,
}

// The kinds that a batch takes.
const TAKEN: [Kind; 3] = [Kind::Read, Kind::Write, Kind::Add];

// The eight bytes of a request.
// Made by hand: bytes that are no request are asked, too.
fn request(kind: u8, byte1: u8, cell: u16, job: u32) -> [u8; 8] {
    let [c0, c1] = cell.to_le_bytes();
    let [j0, j1, j2, j3] = job.to_le_bytes();
    [kind, byte1, c0, c1, j0, j1, j2, j3]
}

// An open takes the lowest free slot: those of slots 0 to 15 are of port 0, the others of port 1, so that a port has at most 16.
fn open_for(free: u32) -> [u8; 8] {
    request(Kind::Open as u8, 0, 0, u32::from(free % 65536 == 0))
}

// An item that is mostly refused: any kind, byte 1 not zero, a cell above 255, a job that was perhaps never issued.
fn bad_item(r: Random, job: u32) -> [u8; 8] {
    let kind = TAKEN[r.below(3, 4) as usize] as u8;
    match r.below(4, 3) {
        0 => request(r.below(10, 4) as u8, 0, 7, job),
        1 => request(kind, 1 + r.below(255, 5) as u8, 7, job),
        2 => request(kind, 0, 256 + r.below(900, 5) as u16, job),
        _ => request(kind, 0, 7, job.wrapping_add(r.below(40, 5) as u32)),
    }
}

// ---- batches

// A batch is the start of these.
type Items = [[u8; 8]; 66];

// A shape of batches, and of the states that they are tried on.
#[derive(Clone, Copy)]
struct Shape {
    name: &'static str,
    // The cells and the jobs in use.
    cells: u64,
    jobs: u64,
    // One in how many steps is a write or an add, one in how many items a bad one, and one in how many batches is of one job. 0 is none, in one number
    // each: an Option would be matched in `one_in`, which asks for 0 in any case.
    writes: u64,
    bad: u64,
    alone: u64,
    // Are the states of any content?
    is_any: bool,
    ghost some_cells: { 0 < cells },
    ghost few_cells: { cells < 256 },
    ghost some_jobs: { 0 < jobs },
    ghost few_jobs: { jobs ≤ 32 },
}

impl Shape {
    // The job in one of the slots in use; 0 where it is free.
    fn job(&self, r: Random, numbers: &[u32; 32]) -> u32 {
        numbers[r.below(self.jobs, 0) as usize]
    }

    // A read, a write or an add.
    fn step(&self, r: Random, job: u32) -> [u8; 8] {
        let kind = if r.one_in(self.writes, 2) {
            TAKEN[1 + r.below(2, 5) as usize]
        } else {
            Kind::Read
        };
        request(kind as u8, 0, r.below(self.cells, 1) as u16, job)
    }

    fn item(&self, r: Random, job: u32) -> [u8; 8] {
        if r.one_in(self.bad, 3) {
            bad_item(r.shifted(), job)
        } else {
            self.step(r, job)
        }
    }

    // Items of one job or of any.
    fn draw(&self, seed: Random, numbers: &[u32; 32], items: &mut Items) {
        let is_alone = seed.one_in(self.alone, 5);
        let first = self.job(seed, numbers);
        for (item, r) in items.iter_mut().zip(seed) {
            let job = if is_alone {
                first
            } else {
                self.job(r, numbers)
            };
            *item = self.item(r, job);
        }
    }

    // A single request between batches: an open, an end, an abandon, or a step.
    fn single(&self, r: Random, free: u32, numbers: &[u32; 32]) -> [u8; 8] {
        let job = self.job(r, numbers);
        match r.below(12, 4) {
            0 => request(Kind::End as u8, 0, 0, job),
            1 => request(Kind::Abandon as u8, 0, 0, job),
            2..=4 => open_for(free),
            _ => self.step(r, job),
        }
    }

    fn go_on(&self, r: Random, state: &mut State) {
        let asked = self.single(r, state.free, &state.numbers);
        let _ = state.ask(asked);
    }

    // Opens for the slots in use, and then requests of any kind.
    fn lead_in(&self, seed: Random) -> State {
        let mut state = State::fresh(JobNumber((seed.0 % 3) as u32));
        for (i, r) in (0..80u64).zip(seed) {
            if i < self.jobs {
                let asked = open_for(state.free);
                let _ = state.ask(asked);
            } else {
                self.go_on(r, &mut state);
            }
        }
        state
    }

    // Twelve batches from one start, and a request after each.
    fn window(&self, seed: Random, counts: &mut Counts) {
        let mut items = [[0; 8]; 66];
        let mut state = if self.is_any {
            any_state(seed)
        } else {
            self.lead_in(seed)
        };
        let mut r = seed;
        for _ in 0..12 {
            r = r.apart();
            self.draw(r, &state.numbers, &mut items);
            let length = length_of(r.shifted());
            counts.batch(&mut state, &items.as_flattened()[..length]);
            self.go_on(r.shifted().shifted(), &mut state);
        }
    }
}

// How many bytes of the items are given: mostly whole items, up to 64 of them.
fn length_of(r: Random) -> usize
    ensures { result ≤ 528 }
{
    let whole = r.below(65, 1) * 8;
    let length = match r.below(24, 2) {
        0 => whole + 1 + r.below(7, 3),
        1 => 513 + r.below(16, 3),
        2 => 520,
        3 => 512,
        4 => r.below(17, 3),
        5 => 320,
        _ => whole,
    };
    length as usize
}

// ---- states of any content

// Fills with what is made of each number that comes.
fn fill<T: Copy, F: Fn(Random) -> T>(all: &mut [T], seed: Random, make: F)
    requires { F.IsAlwaysCallable make }
{
    for (one, r) in all.iter_mut().zip(seed) {
        *one = make(r);
    }
}

// A mask of slots.
fn mask(r: Random) -> u32 {
    (r.sparse() & 0xffff_ffff) as u32
}

// A state that no requests give: a few numbers, some of them twice, leads, sets and ports of any content.
fn any_state(seed: Random) -> State {
    let mut state = State {
        next: seed.0,
        free: (seed.0 & seed.shifted().0 & 0xffff_ffff) as u32,
        numbers: [0; 32],
        leads: [0; 32],
        sets: [0; 512],
        ports: [0; 3],
    };
    fill(&mut state.numbers, seed, |r| (r.0 % 24) as u32);
    fill(&mut state.leads, seed.shifted(), mask);
    fill(&mut state.sets, seed.shifted().shifted(), Random::sparse);
    fill(&mut state.ports, seed, mask);
    state
}

// ---- what is asked

// A batch: how many items were granted.
fn batched(state: &mut State, bytes: &[u8]) -> Batched {
    batch::batch_in_place(
        state.next,
        state.free,
        &mut state.numbers,
        &mut state.leads,
        &mut state.sets,
        bytes,
    )
}

// A refusal of a batch, in numbers of its own: with the refusals of `batch` itself, what they are told by would not be tried.
#[derive(Clone, Copy)]
struct Refused {
    code: u32,
    place: usize,
}

// An item by itself: its code. One of a kind that no batch takes is malformed.
fn ask_item(state: &mut State, asked: [u8; 8]) -> u32 {
    if TAKEN.iter().any(|kind| *kind as u8 == asked[0]) {
        state.ask(asked).code()
    } else {
        1
    }
}

// What the requests are to get as one batch. Every one is asked, on the state that those before it left; the first refusal counts, and then the state from before them all.
fn one_by_one(state: &mut State, bytes: &[u8]) -> Result<usize, Refused> {
    let (items, tail) = bytes.as_chunks::<8>();
    if !tail.is_empty() || 64 < items.len() {
        return Err(Refused { code: 25, place: 0 });
    }
    let before = *state;
    let mut told = Ok(items.len());
    for (place, item) in items.iter().enumerate() {
        let code = ask_item(state, *item);
        if code != 0 && told.is_ok() {
            told = Err(Refused { code, place });
        }
    }
    if told.is_err() {
        *state = before;
    }
    told
}

// Are two states the same? Field by field here, and not by the `==` of the arbiter, which is no code of this program.
fn same_state(a: &State, b: &State) -> bool {
    a.next == b.next
        && a.free == b.free
        && a.numbers == b.numbers
        && a.leads == b.leads
        && a.sets == b.sets
        && a.ports == b.ports
}

// ---- counts

fn raise(count: &mut u64, by: u64) {
    *count = count.wrapping_add(by);
}

#[derive(Clone, Copy)]
struct Counts {
    batches: u64,
    items: u64,
    // How often each code was given, at its place.
    codes: [u64; 26],
    later: u64,
    adds: u64,
    differ: u64,
}

impl Counts {
    const NONE: Counts = Counts {
        batches: 0,
        items: 0,
        codes: [0; 26],
        later: 0,
        adds: 0,
        differ: 0,
    };

    // A batch to both. The state goes on as the code left it.
    fn batch(&mut self, state: &mut State, bytes: &[u8]) {
        let mut ours = *state;
        let told = batched(state, bytes);
        let wanted = one_by_one(&mut ours, bytes);
        let (items, _) = bytes.as_chunks::<8>();
        raise(&mut self.batches, 1);
        raise(&mut self.items, items.len() as u64);
        let is_told = match wanted {
            Ok(count) => {
                let adds = items
                    .iter()
                    .filter(|item| item[0] == Kind::Add as u8)
                    .count();
                raise(&mut self.codes[0], 1);
                raise(&mut self.adds, adds as u64);
                told.code() == 0 && told.place() == count
            }
            Err(refused) => {
                if let Some(given) = self.codes.get_mut(refused.code as usize) {
                    raise(given, 1);
                }
                if refused.place != 0 {
                    raise(&mut self.later, 1);
                }
                told.code() == refused.code && told.place() == refused.place
            }
        };
        if !is_told || !same_state(state, &ours) {
            raise(&mut self.differ, 1);
        }
    }

    fn add(&mut self, other: &Counts) {
        raise(&mut self.batches, other.batches);
        raise(&mut self.items, other.items);
        for (sum, given) in self.codes.iter_mut().zip(other.codes) {
            raise(sum, given);
        }
        raise(&mut self.later, other.later);
        raise(&mut self.adds, other.adds);
        raise(&mut self.differ, other.differ);
    }
}

// ---- the run

const SHAPES: [Shape; 5] = [
    Shape {
        name: "one job at a time:",
        cells: 255,
        jobs: 10,
        writes: 40,
        bad: 0,
        alone: 1,
        is_any: false,
    },
    Shape {
        name: "few cells:",
        cells: 16,
        jobs: 6,
        writes: 4,
        bad: 0,
        alone: 4,
        is_any: false,
    },
    Shape {
        name: "bad items:",
        cells: 64,
        jobs: 12,
        writes: 8,
        bad: 24,
        alone: 4,
        is_any: false,
    },
    Shape {
        name: "32 jobs:",
        cells: 255,
        jobs: 32,
        writes: 40,
        bad: 0,
        alone: 2,
        is_any: false,
    },
    Shape {
        name: "any content:",
        cells: 255,
        jobs: 32,
        writes: 4,
        bad: 96,
        alone: 2,
        is_any: true,
    },
];

// Sixty windows of a shape.
fn windows(shape: &Shape, seed: Random) -> Counts {
    let mut counts = Counts::NONE;
    let mut r = seed;
    for _ in 0..60 {
        r = r.apart();
        shape.window(r, &mut counts);
    }
    counts
}

fn say(rt: &impl Print, words: &[u8], count: u64) {
    host::write_all(rt, words);
    host::write_all(rt, b" ");
    host::print_decimal(rt, count);
}

fn say_counts(rt: &impl Print, name: &[u8], counts: &Counts) {
    say(rt, name, counts.batches);
    say(rt, b" batches of", counts.items);
    say(rt, b" items; codes 0 1 2 3 7 25:", counts.codes[0]);
    for code in [1, 2, 3, 7, 25] {
        say(rt, b"", counts.codes[code]);
    }
    say(rt, b"; refused past place 0:", counts.later);
    say(rt, b"; adds granted:", counts.adds);
    say(rt, b"; differ:", counts.differ);
    host::write_all(rt, b"\n");
}

fn main(rt: HostRuntime) {
    let mut sums = Counts::NONE;
    for (shape, seed) in SHAPES.iter().zip(0..5) {
        let counts = windows(shape, Random(seed));
        say_counts(&rt, shape.name.as_bytes(), &counts);
        sums.add(&counts);
    }
    say_counts(&rt, b"all:", &sums);
}

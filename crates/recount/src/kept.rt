// The lists that all is kept in. Each has named parts side by side, and an input that outgrows a part runs on into the next: that stays as it is, since programs do what they did on every input.
use crate::record::Record;

pub const ROOM: usize = 4608;

// A list has its bytes at LENGTH, eight for each of its numbers, which stand from place 0 on. That of a history, whose numbers are records, has the requests that
// it came from at ASKS and on, the ports of its opens at PORTS and on, how many requests there were, and the first number; and the counts stand at its end.
pub const ASKS: usize = 2048;

pub const MOST_ASKS: usize = 2048;

pub const PORTS: usize = 4096;

pub const LENGTH: usize = 4200;

pub const ASKED: usize = 4201;

pub const FIRST: usize = 4202;

// Where the text goes on after a line.
pub const NEXT: usize = 4203;

// Numbers, of which all lists have as many: past the end 0 is read, and nothing is written.
#[derive(Clone, Copy)]
pub struct List {
    all: [u64; ROOM],
}

impl List {
    // The same number everywhere.
    pub(crate) fn all(x: u64) -> List {
        List { all: [x; ROOM] }
    }

    pub(crate) fn at(&self, i: usize) -> u64 {
        self.all.get(i).copied().unwrap_or(0)
    }

    pub(crate) fn put(&mut self, i: usize, x: u64) {
        if let Some(place) = self.all.get_mut(i) {
            *place = x;
        }
    }

    // So much more at a place.
    pub(crate) fn bump(&mut self, i: usize, x: u64) {
        if let Some(place) = self.all.get_mut(i) {
            *place = place.wrapping_add(x);
        }
    }

    // The numbers at a place and at the next change places.
    pub(crate) fn swap_next(&mut self, i: usize) {
        if i < ROOM - 1 {
            self.all.swap(i, i + 1);
        }
    }

    // How many numbers?
    pub(crate) fn size(&self) -> usize {
        (self.at(LENGTH) / 8) as usize
    }

    // One number more.
    pub(crate) fn push(&mut self, x: u64) {
        self.put(self.size(), x);
        self.bump(LENGTH, 8);
    }

    // So many numbers more, each a step above the one before.
    pub(crate) fn push_run(&mut self, first: u64, step: u64, count: u64) {
        let mut x = first;
        for _ in 0..count {
            self.push(x);
            x = x.wrapping_add(step);
        }
    }

    // The first n places, as far as the list goes. What would stand past its end is 0, and is no record.
    pub(crate) fn head(&self, n: usize) -> &[u64] {
        &self.all[..n.min(ROOM)]
    }

    pub(crate) fn head_mut(&mut self, n: usize) -> &mut [u64] {
        &mut self.all[..n.min(ROOM)]
    }

    pub(crate) fn records(&self) -> &[u64] {
        self.head(self.size())
    }

    // The requests of a history, with the one that is asked now.
    pub(crate) fn asks(&self) -> &[u64] {
        let last = ASKS + (self.at(ASKED) % 2048) as usize;
        &self.all[ASKS..last + 1]
    }

    // An empty history or log begins, with its first number.
    pub(crate) fn begin(&mut self, first: u64) {
        self.put(LENGTH, 0);
        self.put(ASKED, 0);
        self.put(FIRST, first);
    }

    // A log does not hold ports: that of the open at place i of the records stands apart, 32 to a number.
    pub(crate) fn port_at(&self, i: usize) -> u64 {
        self.at(PORTS | i / 32) >> (i % 32 * 2) & 3
    }

    pub(crate) fn put_port(&mut self, i: usize, port: u64) {
        let change = self.port_at(i) ^ port % 4;
        let old = self.at(PORTS | i / 32);
        self.put(PORTS | i / 32, old ^ change << (i % 32 * 2));
    }
}

// ---- what is left of records: 0 stands for one that is taken out, and others may be marked. They stand in a list of numbers; the functions below differ in what they do with a record, a line each

// The records of a job are taken out.
pub(crate) fn take_out(records: &mut [u64], job: u64) {
    for x in records.iter_mut() {
        if Record(*x).job() == job {
            *x = 0;
        }
    }
}

// The records of a job are marked.
pub(crate) fn mark(records: &mut [u64], job: u64) {
    for x in records.iter_mut() {
        if Record(*x).job() == job {
            *x = Record(*x).marked().0;
        }
    }
}

// Is one of these records in conflict with a later one?
pub(crate) fn meets(earlier: &[u64], later: Record) -> bool {
    earlier.iter().any(|x| Record(*x).conflicts_with(later))
}

// Is one of the marked ones?
pub(crate) fn marked_meets(earlier: &[u64], later: Record) -> bool {
    let mut records = earlier.iter();
    records.any(|x| Record(*x).is_marked() && Record(*x).conflicts_with(later))
}

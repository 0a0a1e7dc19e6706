// The lists that all is kept in. Each has named parts side by side, and an input that outgrows a part runs on into the next: that stays as it is, since programs do what they did on every input.

const ROOM: usize = 4608;

// A list has its numbers from place 0 on, and their count at LENGTH. That of a history, whose numbers are records, has what was asked at ASKS and on, the ports of its opens at PORTS and on, how
// many were asked, and the first number; and the counts stand at its end.
const ASKS: usize = 2048;

const PORTS: usize = 4096;

pub const LENGTH: usize = 4200;

pub const ASKED: usize = 4201;

pub const FIRST: usize = 4202;

// Where the text goes on after a line.
pub const NEXT: usize = 4203;

pub const COUNTS: usize = 4352;

// What was asked, eight places each: the four words of a publish's cell set; the request, and of a publish the job where a request has it; and whether it is a publish.
pub(crate) fn place(i: usize, part: usize) -> usize {
    ASKS | i << 3 | part
}

pub const REQUEST: usize = 4;

pub const PUBLISH: usize = 5;

// Numbers, of which all lists have as many: past the end 0 is read, and nothing is written.
#[derive(Clone, Copy)]
pub struct List {
    all: [u64; ROOM],
}

impl List {
    pub(crate) fn empty() -> List {
        List { all: [0; ROOM] }
    }

    pub(crate) fn at(&self, i: usize) -> u64 {
        self.all.get(i).copied().unwrap_or(0)
    }

    pub(crate) fn put(&mut self, i: usize, x: u64) {
        if let Some(place) = self.all.get_mut(i) {
            *place = x;
        }
    }

    // So much more at a place.
    pub(crate) fn bump(&mut self, i: usize, x: u64) {
        if let Some(place) = self.all.get_mut(i) {
            *place = place.wrapping_add(x);
        }
    }

    // How many numbers?
    pub(crate) fn size(&self) -> usize {
        self.at(LENGTH) as usize
    }

    // One number more.
    pub(crate) fn push(&mut self, x: u64) {
        self.put(self.size(), x);
        self.bump(LENGTH, 1);
    }

    // The first n places, as far as the list goes. What would stand past its end is 0, and is no record.
    pub(crate) fn head(&self, n: usize) -> &[u64] {
        &self.all[..n.min(ROOM)]
    }

    pub(crate) fn head_mut(&mut self, n: usize) -> &mut [u64] {
        &mut self.all[..n.min(ROOM)]
    }

    pub(crate) fn records(&self) -> &[u64] {
        self.head(self.size())
    }

    // An empty history begins, with its first number. The counts stay.
    pub(crate) fn begin(&mut self, first: u64) {
        self.all[..COUNTS].fill(0);
        self.put(FIRST, first);
    }

    // A log does not hold ports: that of the open at place i of the records stands apart, 32 to a number.
    pub(crate) fn port_at(&self, i: usize) -> u64 {
        self.at(PORTS | i / 32) >> (i % 32 * 2) & 3
    }

    pub(crate) fn put_port(&mut self, i: usize, port: u64) {
        self.bump(PORTS | i / 32, port % 4 << (i % 32 * 2));
    }

    // One more of what is counted.
    pub(crate) fn count(&mut self, i: usize) {
        self.bump(COUNTS | i, 1);
    }
}

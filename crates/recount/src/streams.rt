// Streams from a seed: windows of requests in six shapes, and after each the log of it, whole and damaged, with orders right and wrong.
use crate::counts::Row;
use crate::judging::{laid, try_check, try_list};
use crate::kept::{LENGTH, List};
use crate::record::{Kind, Record, marks_of, open_jobs};
use crate::replies::{ask, begin};

pub const SEED: u64 = 1981;

#[derive(Drop)]
struct Generator {
    last: u64,
}

impl Generator {
    fn next(&mut self) -> u64 {
        let mut x = self.last;
        x ^= x << 13;
        x ^= x >> 7;
        x ^= x << 17;
        self.last = x;
        x
    }
}

#[derive(Clone, Copy, PartialEq, Eq)]
pub enum Shape {
    FewCells,
    OneOpen,
    BadRequests,
    Abandons,
    SlotsFull,
    NumbersOut,
}

impl Shape {
    pub const ALL: [Shape; 6] = [
        Shape::FewCells,
        Shape::OneOpen,
        Shape::BadRequests,
        Shape::Abandons,
        Shape::SlotsFull,
        Shape::NumbersOut,
    ];

    pub(crate) fn row(self) -> Row {
        Row::of_shape(self as usize)
    }

    pub(crate) fn name(self) -> &'static str {
        match self {
            Shape::FewCells => "few cells",
            Shape::OneOpen => "one job open throughout",
            Shape::BadRequests => "bad requests",
            Shape::Abandons => "abandons",
            Shape::SlotsFull => "slots full",
            Shape::NumbersOut => "numbers running out",
        }
    }

    // The cells in use are those with no bit but these.
    fn cells(self) -> u8 {
        match self {
            Shape::FewCells => 0x83,
            Shape::OneOpen => 0xc3,
            Shape::BadRequests => 0x33,
            Shape::Abandons => 0x43,
            Shape::SlotsFull => 0xe3,
            Shape::NumbersOut => 0xc3,
        }
    }

    // What is asked for a job with an even number; where one job is open throughout, for that one.
    fn even_kinds(self) -> [Kind; 7] {
        use Kind::{Abandon, Add, Open, Publish, Read, Write};
        match self {
            Shape::FewCells | Shape::BadRequests => [Publish, Write, Add, Add, Read, Read, Open],
            Shape::OneOpen => [Write, Write, Add, Add, Read, Open, Open],
            Shape::Abandons => [Publish, Abandon, Add, Add, Write, Read, Open],
            Shape::SlotsFull => [Publish, Write, Read, Add, Open, Open, Open],
            Shape::NumbersOut => [Write, Write, Add, Read, Open, Open, Open],
        }
    }

    // What is asked for a job with an odd number; where one job is open throughout, for the others.
    fn odd_kinds(self) -> [Kind; 7] {
        use Kind::{Abandon, Add, End, Open, Publish, Read, Write};
        match self {
            Shape::FewCells | Shape::BadRequests => [Abandon, End, Add, Write, Read, Read, Open],
            Shape::OneOpen => [Publish, End, End, Add, Write, Read, Open],
            Shape::Abandons => [Abandon, Add, Read, Read, Read, Read, Open],
            Shape::SlotsFull => [Abandon, End, Add, Write, Read, Open, Open],
            Shape::NumbersOut => [Publish, Write, Add, Add, Open, Open, Open],
        }
    }

    // The number of a window's first job.
    fn first_number(self, r: u64) -> u64 {
        match self {
            Shape::OneOpen => 2147483647,
            Shape::NumbersOut => 4294967271 - r % 24,
            _ => r % 3,
        }
    }

    // What is asked: mostly of an open job, if there is one. The three ports are named alike, and now and then 3, which is none; where the numbers run out, mostly 0 and 1. Among the bad requests, every
    // second has two bits changed.
    fn request(self, h: &List, r: u64) -> Record {
        let job = job_for(h.records(), r >> 40);
        let sort = if self == Shape::OneOpen {
            job >> 31
        } else {
            job
        };
        let kinds = if sort % 2 == 0 {
            self.even_kinds()
        } else {
            self.odd_kinds()
        };
        let kind = kinds[(r % 7) as usize];
        let of_each = if self == Shape::NumbersOut { 60 } else { 42 };
        let port = (r >> 33) % 128 / of_each;
        let cell = r >> 8 & u64::from(self.cells());
        let asked = kind as u64 | cell << 16 | (if kind == Kind::Open { port } else { job }) << 32;
        if self == Shape::BadRequests && r >> 16 & 1 == 0 {
            return Record(asked ^ 1 << ((r >> 20) % 64) ^ 1 << ((r >> 26) % 64));
        }
        Record(asked)
    }

    // 256 requests from a fresh state.
    fn window(self, h: &mut List, seed: u64) {
        let mut numbers = Generator { last: seed };
        begin(h, self.row(), self.first_number(seed));
        for _ in 0..256 {
            let asked = self.request(h, numbers.next());
            ask(h, self.row(), asked, None);
        }
    }
}

// An open job, and any number where none is open.
fn job_for(records: &[u64], r: u64) -> u64 {
    let jobs = open_jobs(records) as u64;
    if jobs == 0 {
        return r;
    }
    let mut open = records.iter().filter(|x| {
        Record(**x).is(Kind::Open) && marks_of(records, Record(**x).job()).is_open()
    });
    let job = open.nth((r % jobs) as usize);
    job.map_or(r, |open| Record(*open).job())
}

// The log as it is in a round: whole; or with a record's kind changed to the one beside it, or a write to an add or back, its job, or any bit of it; or with its length changed.
// A round is no more than its number: an enum would be made of it and matched once.
fn damaged(h: &List, round: u32, r: u64) -> List {
    let place = (r % 128) as usize;
    let any = r >> 7;
    let (place, bits) = match round {
        4 => (place, 1),
        5 => (place, 4),
        6 => (place, (any % 8) << 32),
        7 => (place, 1 << (any % 64)),
        8 => (LENGTH, any % 16),
        _ => (place, 0),
    };
    let mut log = *h;
    log.put(place, h.at(place) ^ bits);
    log
}

// The log of a window in a round, with an order, in which two neighbours change places in the first rounds, and with a list that has room for so many jobs, for one more, or for one less.
fn try_round(h: &mut List, round: u32, r: u64) {
    let log = damaged(h, round, r >> 20);
    let mut order = laid(h);
    if round < 4 {
        order.swap_next(((r >> 20) % 16) as usize);
    }
    let room = order.size().wrapping_add((r % 3) as usize);
    let (mine, theirs) = try_check(&log, &order);
    Row::STREAM_ORDERS.compare(h, mine, theirs, None);
    let (mine, theirs) = try_list(&log, room.wrapping_sub(1));
    Row::STREAM_LISTS.compare(h, mine, theirs, None);
}

// Twenty windows of each shape, and nine rounds after each.
pub(crate) fn try_streams(h: &mut List) {
    let mut numbers = Generator { last: SEED };
    for shape in Shape::ALL {
        for _ in 0..20 {
            shape.window(h, numbers.next());
            for round in 1..10 {
                try_round(h, round, numbers.next());
            }
        }
    }
}

// The text of histories, logs, orders and lists, line by line.
use crate::counts::{LOGS, Row, Said};
use crate::judging::{try_check, try_list};
use crate::kept::{FIRST, LENGTH, List, NEXT, ROOM};
use crate::record::{Kind, Record};
use crate::replies::{ask, begin};

// A word or a number with one byte more, if it is a letter or a digit.
fn grown(old: u64, byte: u8) -> u64 {
    let digit = byte ^ b'0';
    if digit < 10 {
        return old % 0x1_0000_0000_0000 * 10 + u64::from(digit);
    }
    if byte < b'A' {
        return old;
    }
    old % 0x1_0000_0000_0000 * 256 + u64::from(byte)
}

// The letters that a word's number stands for are its bytes, but for zeros before them.
fn letters(number: &[u8; 8]) -> &[u8] {
    let zeros = number.iter().take_while(|byte| **byte == 0).count();
    number.get(zeros..).unwrap_or(&[])
}

// The number of a kind, by its name; any other word is its own number.
fn kind_named(word: u64) -> u64 {
    let kind = match letters(&word.to_be_bytes()) {
        b"open" => Kind::Open,
        b"read" => Kind::Read,
        b"write" => Kind::Write,
        b"end" => Kind::End,
        b"abandon" => Kind::Abandon,
        b"publish" => Kind::Publish,
        b"add" => Kind::Add,
        _ => return word,
    };
    kind as u64
}

// ---- a line. Its words and numbers are its fields, four places each: the number, what a run adds, what it takes away, and how many it has.

const ADDS: usize = 1;

const TAKES: usize = 2;

const TIMES: usize = 3;

// Which field is the last one stands at LENGTH, and where the text goes on at NEXT: in the list, since a line of very many fields runs on into them.
#[derive(Clone, Copy)]
struct Fields {
    list: List,
}

// Where what follows a byte stands. What follows the mark of a comment has no place: the last field is then past all others.
fn place_past(k: usize, byte: u8) -> usize {
    match byte {
        b'#' => ROOM,
        b' ' => (k | 3).wrapping_add(1),
        b'+' => k & !3 | ADDS,
        b'-' => k & !3 | TAKES,
        b'*' => k | TIMES,
        _ => k,
    }
}

impl Fields {
    // Those of the line from a place on.
    fn of(text: &[u8], from: usize) -> Fields {
        let rest = text.get(from..).unwrap_or(&[]);
        let ends = rest.iter().position(|byte| *byte == b'\n');
        let end = ends.unwrap_or(rest.len());
        let mut list = List::all(0);
        let mut k = 0;
        for byte in rest.iter().take(end) {
            list.put(k, grown(list.at(k), *byte));
            k = place_past(k, *byte);
        }
        list.put(LENGTH, (k / 4) as u64);
        list.put(NEXT, from.wrapping_add(end) as u64);
        Fields { list }
    }

    fn last(&self) -> usize {
        self.list.at(LENGTH) as usize
    }

    fn next(&self) -> usize {
        self.list.at(NEXT) as usize
    }

    fn part(&self, k: usize, i: usize) -> u64 {
        self.list.at(k << 2 | i)
    }

    fn number(&self, k: usize) -> u64 {
        self.part(k, 0)
    }

    // The request or the record whose kind is field k; or what is added to one, or what is taken away.
    fn record(&self, k: usize, i: usize) -> u64 {
        kind_named(self.part(k, i))
            | self.part(k.wrapping_add(1), i) << 8
            | self.part(k.wrapping_add(2), i) << 16
            | self.part(k.wrapping_add(3), i) << 32
    }

    // How many numbers does a field's run have? One that does not say has one.
    fn times(&self, k: usize) -> u64 {
        match self.part(k, TIMES) {
            0 => 1,
            times => times,
        }
    }

    // The order in the fields from 1 on and before field k.
    fn order(&self, k: usize) -> List {
        let mut order = List::all(0);
        for i in 1..k {
            let step = self.part(i, ADDS).wrapping_sub(self.part(i, TAKES));
            order.push_run(self.number(i), step, self.times(i));
        }
        order
    }

    // The answer that field k and the next have. All ones are none.
    fn want(&self, k: usize) -> Option<Said> {
        let want = self.number(k) | self.number(k.wrapping_add(1)) << 32;
        if want == u64::MAX {
            return None;
        }
        Some(Said(want))
    }

    // Is it a comment, or empty? A row whose kind is 0 has six fields.
    fn is_passed(&self) -> bool {
        self.number(0) == 0 && self.last() != 5
    }
}

// ---- what a line tells

// A made-up state, that no requests lead to, has no first number: no Option, as the list holds numbers.
const MADE_UP: u64 = u64::MAX;

// A row of a history. Those of a made-up state are passed over.
fn tell_row(h: &mut List, fields: &Fields) {
    if h.at(FIRST) != MADE_UP {
        let asked = Record(fields.record(0, 0));
        ask(h, Row::HISTORIES, asked, fields.want(4));
    }
}

// Records of a log more, whose cells and jobs may be runs.
fn tell_records(h: &mut List, fields: &Fields) {
    let step = fields.record(1, ADDS).wrapping_sub(fields.record(1, TAKES));
    h.push_run(fields.record(1, 0), step, fields.times(4));
}

fn tell_order(h: &mut List, fields: &Fields) {
    let k = fields.last().wrapping_sub(1);
    let order = fields.order(k);
    let (mine, theirs) = try_check(h, &order);
    Row::ORDERS.compare(h, mine, theirs, fields.want(k));
}

fn tell_list(h: &mut List, fields: &Fields) {
    let room = fields.number(1) as usize;
    let (mine, theirs) = try_list(h, room);
    Row::LISTS.compare(h, mine, theirs, fields.want(2));
}

// A line: it begins a history, a state or a log, or has more of a log, or asks, or is one of the arbiter's slots, which has no second telling. One that cannot be read is asked as a row, and differs.
fn tell(h: &mut List, fields: &Fields) {
    match letters(&fields.number(0).to_be_bytes()) {
        b"history" => begin(h, Row::HISTORIES, fields.number(1)),
        b"state" | b"full" => h.put(FIRST, MADE_UP),
        b"log" => {
            h.begin(0);
            Row::ORDERS.count(h, LOGS);
        }
        b"tail" => h.bump(LENGTH, fields.number(1)),
        b"record" => tell_records(h, fields),
        b"order" => tell_order(h, fields),
        b"list" => tell_list(h, fields),
        b"row" | b"cells" | b"port" | b"left" => {}
        _ => tell_row(h, fields),
    }
}

const MOST_LINES: usize = 8192;

pub(crate) fn tell_all(h: &mut List, text: &[u8]) {
    let mut from = 0;
    for _ in 0..MOST_LINES {
        let fields = Fields::of(text, from);
        if !fields.is_passed() {
            tell(h, &fields);
        }
        from = fields.next().wrapping_add(1);
    }
}

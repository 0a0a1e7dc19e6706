// The second witness of the second profile: the arbiter's replies to reads, abandons and publishes, told again from the whole history.
//
// All that is granted is kept, as the records of a log, and each ask is decided from these by the definitions, in plain loops over every record and every pair of
// records: a publish by whether the ended jobs, this one with its writes among them, can be taken out one after the other, none before those that precede it. The arbiter
// is asked the same from its fresh state, and the two answers are held to each other and to the text. No code is shared with it, but the eight bytes of a request. At the end of
// each history the log without the jobs still open is given to the lister, and the order that it lists to the checker. What is proved here is that the program is safe and ends,
// and nothing of its answers: they are a second reading of the same rules.
//
// Nor is code shared with `recount`: what both have, as a record and a conflict, would need contracts in a library, and a slip there would stand in both.
//
// What is asked comes from standard input, which says at its start how it is written.
#![tactic(auto)]

mod asking;
mod kept;
mod record;

use asking::{Said, answers, closed_log, is_ordered};
use kept::{ASKED, COUNTS, LENGTH, List, NEXT, PUBLISH, REQUEST, place};
use record::Kind;
use std::fmt;

// ---- counts: how many answers and records differed from what they are to be, how many asks there were, how many of each code, how many publishes
// granted, how many records, and how many histories. They stand at the end of the list, at these numbers, as `kept` says.

const DIFFER: usize = 0;

const ASKS: usize = 1;

const CODES: usize = 2;

const PUBLISHES: usize = 12;

const RECORDS: usize = 13;

const HISTORIES: usize = 14;

// What is wanted of the ask that stands last. Whether it is a publish is a number here and in `asking`: a place that was run into may hold any.
fn try_ask(h: &mut List, want: Said) {
    let publish = h.at(place(h.at(ASKED) as usize, PUBLISH));
    let (mine, theirs) = answers(h);
    let said = Said::from(mine);
    if said != theirs || said != want {
        h.count(DIFFER);
    }
    h.count(ASKS);
    h.count(CODES + (said.0 % 16) as usize);
    if publish % 2 == 1 && mine.is_ok() {
        h.count(PUBLISHES);
    }
}

// A history is over.
fn settle(h: &mut List) {
    if !is_ordered(h) {
        h.count(DIFFER);
    }
    h.count(HISTORIES);
}

// ---- the text. A line's words and numbers are its fields.

// A word or a number with one byte more, if it is a letter or a digit.
fn grown(old: u64, byte: u8) -> u64 {
    let digit = byte ^ b'0';
    if digit < 10 {
        return old % 0x1_0000_0000_0000 * 10 + u64::from(digit);
    }
    if byte < b'A' {
        return old;
    }
    old % 0x1_0000_0000_0000 * 256 + u64::from(byte)
}

// The letters that a word's number stands for are its bytes, but for zeros before them.
fn letters(number: &[u8; 8]) -> &[u8] {
    let zeros = number.iter().take_while(|byte| **byte == 0).count();
    number.get(zeros..).unwrap_or(&[])
}

// The number of a kind, by its name; any other word is its own number.
fn kind_named(word: u64) -> u64 {
    let kind = match letters(&word.to_be_bytes()) {
        b"open" => Kind::Open,
        b"read" => Kind::Read,
        b"write" => Kind::Write,
        b"end" => Kind::End,
        b"abandon" => Kind::Abandon,
        _ => return word,
    };
    kind as u64
}

// Which field is the last one stands at LENGTH, and where the text goes on at NEXT: in the list, since a line of very many fields runs on into them.
#[derive(Clone, Copy)]
struct Fields {
    list: List,
}

impl Fields {
    // Those of the line from a place on. What follows the mark of a comment has no place: 4608 is past the list.
    fn of(text: &[u8], from: usize) -> Fields {
        let rest = text.get(from..).unwrap_or(&[]);
        let ends = rest.iter().position(|byte| *byte == b'\n');
        let end = ends.unwrap_or(rest.len());
        let mut list = List::empty();
        let mut k: usize = 0;
        for byte in rest.iter().take(end) {
            list.put(k, grown(list.at(k), *byte));
            if b'0' <= *byte && k < LENGTH {
                list.put(LENGTH, k as u64);
            }
            k = match byte {
                b'#' => 4608,
                b' ' => k.wrapping_add(1),
                _ => k,
            };
        }
        list.put(NEXT, from.wrapping_add(end) as u64);
        Fields { list }
    }

    fn at(&self, k: usize) -> u64 {
        self.list.at(k)
    }

    fn last(&self) -> usize {
        self.list.at(LENGTH) as usize
    }

    fn next(&self) -> usize {
        self.list.at(NEXT) as usize
    }

    // The request or the record whose kind is field k.
    fn record(&self, k: usize) -> u64 {
        kind_named(self.at(k))
            | self.at(k.wrapping_add(1)) << 8
            | self.at(k.wrapping_add(2)) << 16
            | self.at(k.wrapping_add(3)) << 32
    }

    // A line with one field that is 0 is a comment, or empty.
    fn is_passed(&self) -> bool {
        self.at(0) == 0 && self.last() == 0
    }
}

// ---- what a line tells

// A request; and the answer that the last two fields want.
fn tell_row(h: &mut List, fields: &Fields) {
    let last = fields.last();
    let code = last.wrapping_sub(1);
    try_ask(h, Said(fields.at(code) | fields.at(last) << 32));
}

fn tell_request(h: &mut List, fields: &Fields) {
    let i = h.at(ASKED) as usize;
    h.put(place(i, REQUEST), fields.record(0));
    tell_row(h, fields);
}

// A publish, with its job and its cells, which are put into the set of the ask.
fn tell_publish(h: &mut List, fields: &Fields) {
    let i = h.at(ASKED) as usize;
    h.put(place(i, REQUEST), fields.at(1) << 32);
    h.put(place(i, PUBLISH), 1);
    for k in 2..fields.last().wrapping_sub(1) {
        let cell = fields.at(k);
        let word = place(i, (cell / 64) as usize);
        h.put(word, h.at(word) | 1 << (cell % 64));
    }
    tell_row(h, fields);
}

// The record at a place of the log, with the jobs still open taken out.
fn tell_record(h: &mut List, fields: &Fields) {
    if closed_log(h).at(fields.at(1) as usize) != fields.record(2) {
        h.count(DIFFER);
    }
    h.count(RECORDS);
}

// A line: it begins a history, or asks, or says what a record is. One that cannot be read is asked as a row, and differs.
fn tell(h: &mut List, fields: &Fields) {
    match letters(&fields.at(0).to_be_bytes()) {
        b"history" => {
            settle(h);
            h.begin(fields.at(1));
        }
        b"record" => tell_record(h, fields),
        b"publish" => tell_publish(h, fields),
        _ => tell_request(h, fields),
    }
}

const MOST_LINES: usize = 8192;

fn tell_all(h: &mut List, text: &[u8]) {
    let mut from = 0;
    for _ in 0..MOST_LINES {
        let fields = Fields::of(text, from);
        if !fields.is_passed() {
            tell(h, &fields);
        }
        from = fields.next().wrapping_add(1);
    }
    settle(h);
}

// ---- the report

// The counts of codes, each after a blank.
#[derive(Drop)]
struct Codes<'a>(&'a List);

impl fmt::Display for Codes<'_> {
    fn fmt<W: fmt::Write>(&self, f: &mut fmt::Formatter<W>) -> fmt::Result {
        for i in CODES..PUBLISHES {
            write!(f, " {}", self.0.at(COUNTS | i))?;
        }
        Ok(())
    }
}

// A report that cannot be written is no failure of the program.
fn report(rt: &impl Print, h: &List) {
    let differ = h.at(COUNTS | DIFFER);
    let asks = h.at(COUNTS | ASKS);
    let publishes = h.at(COUNTS | PUBLISHES);
    let records = h.at(COUNTS | RECORDS);
    let histories = h.at(COUNTS | HISTORIES);
    let codes = Codes(h);
    let _ = println!(rt;
        "{differ} differ of {asks} asks; codes 0 to 9:{codes}; {publishes} publishes granted, {records} records, {histories} histories"
    );
}

fn main(rt: HostRuntime) {
    let mut space = [0u8; 131072];
    let count = host::read_full(&mut rt.stdin(), &mut space);
    let mut h = List::empty();
    tell_all(&mut h, &space[..count]);
    report(&rt, &h);
}

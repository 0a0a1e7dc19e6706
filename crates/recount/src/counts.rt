// Answers compared and counted.
use crate::kept::List;
use crate::record::{Kind, Record};
use std::fmt;

// An answer as one number: its code in the low four bytes, the job of a reply or the place of a verdict in the others. The text wants any of either, also such as no reply and no verdict has.
#[derive(Clone, Copy, PartialEq, Eq)]
pub struct Said(pub u64);

impl Said {
    pub(crate) fn of(code: u64, number: u64) -> Said {
        Said(code | number << 32)
    }
}

// A row of counts has 16 places: how many answers differed, how many there were, how many had each code, of which those from 11 on stand for 1 to 8, how many replies of 7 had a circle through
// ended jobs alone, how many histories there were, and how many publishes and how many adds were granted. Of orders, which have no 9, the logs are counted in its place.
const DIFFER: usize = 0;

const ANSWERS: usize = 1;

const CODES: usize = 2;

pub const LOGS: usize = 11;

pub const BY_ENDED: usize = 12;

pub const BEGUN: usize = 13;

pub const PUBLISHES: usize = 14;

pub const ADDS: usize = 15;

// The rows stand at the end of a history's list, as the report has them line by line. A row of each shape comes first, and then what they sum to; the last is what the others sum to.
#[derive(Clone, Copy)]
pub struct Row(usize);

impl Row {
    const SHAPES: usize = 4368;

    pub const STREAMS: Row = Row(4464);

    pub const HISTORIES: Row = Row(4480);

    pub const ORDERS: Row = Row(4496);

    pub const LISTS: Row = Row(4512);

    pub const STREAM_ORDERS: Row = Row(4528);

    pub const STREAM_LISTS: Row = Row(4544);

    pub const REST: Row = Row(4560);

    // That of the shape with this number, of six.
    pub(crate) fn of_shape(shape: usize) -> Row {
        Row(Row::SHAPES + shape % 6 * 16)
    }

    // What the row is summed to.
    fn sum(self) -> Row {
        if self.0 < Row::STREAMS.0 {
            return Row::STREAMS;
        }
        Row::REST
    }

    pub(crate) fn at(self, h: &List, i: usize) -> u64 {
        h.at(self.0 | i)
    }

    // One more at a place of the row, and of what it is summed to.
    pub(crate) fn count(self, h: &mut List, i: usize) {
        h.bump(self.0 | i, 1);
        h.bump(self.sum().0 | i, 1);
    }

    // One answer more, which is to be the other's, and the one that is wanted if one is given.
    pub(crate) fn compare(
        self,
        h: &mut List,
        mine: Said,
        theirs: Option<Said>,
        want: Option<Said>,
    ) {
        if theirs != Some(mine) || want.is_some_and(|want| want != mine) {
            self.count(h, DIFFER);
        }
        self.count(h, ANSWERS);
        self.count(h, CODES + (mine.0 % 256 % 10) as usize);
    }

    // One request more was granted.
    pub(crate) fn granted(self, h: &mut List, asked: Record) {
        match Kind::try_from(asked.kind()) {
            Ok(Kind::Publish) => self.count(h, PUBLISHES),
            Ok(Kind::Add) => self.count(h, ADDS),
            _ => {}
        }
    }
}

// What all streams differ in is also in the sum of all.
pub(crate) fn sum_streams(h: &mut List) {
    let differ = Row::STREAMS.at(h, DIFFER);
    h.bump(Row::REST.0 | DIFFER, differ);
}

// ---- as the report has them

#[derive(Drop)]
pub struct Differ<'a>(pub &'a List, pub Row);

impl fmt::Display for Differ<'_> {
    fn fmt<W: fmt::Write>(&self, f: &mut fmt::Formatter<W>) -> fmt::Result {
        let Differ(h, row) = *self;
        write!(f, "{} differ", row.at(h, DIFFER))
    }
}

// Counts of codes, those at the places from CODES to an end, after what they are counts of.
#[derive(Drop)]
struct Codes<'a>(&'a List, Row, &'static str, usize);

impl fmt::Display for Codes<'_> {
    fn fmt<W: fmt::Write>(&self, f: &mut fmt::Formatter<W>) -> fmt::Result {
        let Codes(h, row, answers, end) = *self;
        write!(f, "{} of {} {answers}:", Differ(h, row), row.at(h, ANSWERS))?;
        for i in CODES..end {
            write!(f, " {}", row.at(h, i))?;
        }
        Ok(())
    }
}

// The replies to requests.
#[derive(Drop)]
pub struct Replies<'a>(pub &'a List, pub Row);

impl fmt::Display for Replies<'_> {
    fn fmt<W: fmt::Write>(&self, f: &mut fmt::Formatter<W>) -> fmt::Result {
        let Replies(h, row) = *self;
        let codes = Codes(h, row, "requests", BY_ENDED);
        let by_ended = row.at(h, BY_ENDED);
        let histories = row.at(h, BEGUN);
        let publishes = row.at(h, PUBLISHES);
        let adds = row.at(h, ADDS);
        write!(f, "{codes}, {by_ended}; {histories} histories, ")?;
        write!(f, "{publishes} publishes and {adds} adds granted")
    }
}

// The verdicts of the checker, or the answers of the lister.
#[derive(Drop)]
pub struct Verdicts<'a>(pub &'a List, pub Row, pub &'static str);

impl fmt::Display for Verdicts<'_> {
    fn fmt<W: fmt::Write>(&self, f: &mut fmt::Formatter<W>) -> fmt::Result {
        let Verdicts(h, row, answers) = *self;
        write!(f, "{}", Codes(h, row, answers, LOGS))
    }
}

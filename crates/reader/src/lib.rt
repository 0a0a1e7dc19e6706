// A log read one record at a time.
#![tactic(auto)]

ghost use Rattle.std.specs.Prelude.{◌≡◌, ◌+◌, ◌-◌, ◌*◌, ◌/◌, length};
ghost use Rattle.std.specs.Iterator.{at_most};
ghost use Rattle.std.proofs.Math.ListN.{get_elem?};
ghost use Rattle.history.specs.Formats.{records};
ghost use Rattle.reader.specs.Next.{told, place_after, moved_on};

// The fields of a record, not judged.
#[derive(Clone, Copy, PartialEq, Eq)]
pub struct Record {
    pub kind: u8,
    pub byte1: u8,
    pub cell: u32,
    pub job: u32,
}

// The record at a place of the log, counted from 0. By place: the contract says it so, and of a piece that `as_chunks` gives it would have to be shown which bytes of the log it has.
pub fn record_at(log: &[u8], place: usize) -> Option<Record>
    ensures { told result ≡ get_elem? (records log.now) place }
{
    if place < log.len() / 8 {
        let at = place * 8;
        return Some(Record {
            kind: log[at],
            byte1: log[at + 1],
            cell: u32::from(u16::from_le_bytes([log[at + 2], log[at + 3]])),
            job: u32::from_le_bytes([log[at + 4], log[at + 5], log[at + 6], log[at + 7]]),
        });
    }
    None
}

// The place after this one; at or past the last record it stays.
pub fn after(log: &[u8], place: usize) -> usize
    ensures { result ≡ place_after log.now place }
{
    if place < log.len() / 8 {
        place + 1
    } else {
        place
    }
}

// A log, and the place of the next record.
#[derive(Clone, Copy)]
pub struct Reader<'a> {
    pub log: &'a [u8],
    pub place: usize,
}

impl<'a> Reader<'a> {
    // At the first record.
    pub fn new(log: &'a [u8]) -> Reader<'a>
        ensures { (result.log ≡ log.entry) × (result.place ≡ 0) }
    {
        Reader { log, place: 0 }
    }

    // At a place, inside or not.
    pub fn at(log: &'a [u8], place: usize) -> Reader<'a>
        ensures { (result.log ≡ log.entry) × (result.place ≡ place) }
    {
        Reader { log, place }
    }

    pub fn place(self) -> usize
        ensures { result ≡ self.entry.place }
    {
        self.place
    }
}

// The records in their order.
impl<'a> Iterator for Reader<'a> {
    type Item = Record;

    ghost next_gives = { λ r read s. (told read ≡ get_elem? (records r.log.now) r.place) × (s ≡ moved_on r) };

    ghost remaining = { λ r. at_most (length r.log.now / 8 - r.place) };

    // The next record; the reader moves on.
    fn next(&mut self) -> Option<Record> {
        let log = self.log;
        let place = self.place;
        let next = record_at(log, place);
        self.place = after(log, place);
        next
    }
}

// The record at a place, read by a reader that is made for it. It says what `record_at` says, and stays as `one_next_record` names it.
pub fn next_record(log: &[u8], place: usize) -> Option<Record>
    ensures { told result ≡ get_elem? (records log.now) place }
{
    let mut r = Reader::at(log, place);
    r.next()
}

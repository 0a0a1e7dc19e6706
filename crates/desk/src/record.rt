// A request, or a record of a log: eight bytes as one number, the low byte of each part first.

#[derive(Clone, Copy, PartialEq, Eq)]
pub enum Kind {
    Open = 1,
    Read = 2,
    Write = 3,
    End = 4,
    Abandon = 5,
}

// A number that is no kind of the second profile.
#[derive(Clone, Copy, PartialEq, Eq)]
pub struct UnknownKind(pub u64);

impl TryFrom<u64> for Kind {
    type Error = UnknownKind;

    fn try_from(number: u64) -> Result<Kind, UnknownKind> {
        match number {
            1 => Ok(Kind::Open),
            2 => Ok(Kind::Read),
            3 => Ok(Kind::Write),
            4 => Ok(Kind::End),
            5 => Ok(Kind::Abandon),
            _ => Err(UnknownKind(number)),
        }
    }
}

// It stays one number, since a place of a list may be read as one, whatever stands there.
#[derive(Clone, Copy, PartialEq, Eq)]
pub struct Record(pub u64);

impl Record {
    pub(crate) fn of(kind: Kind, cell: u64, job: u64) -> Record {
        Record(kind as u64 | cell << 16 | job << 32)
    }

    pub(crate) fn kind(self) -> u64 {
        self.0 % 256
    }

    pub(crate) fn cell(self) -> u64 {
        self.0 >> 16 & 65535
    }

    pub(crate) fn job(self) -> u64 {
        self.0 >> 32
    }

    pub(crate) fn is(self, kind: Kind) -> bool {
        self.kind() == kind as u64
    }

    // The kind, where it is one and byte 1 is 0.
    pub(crate) fn well_formed(self) -> Option<Kind> {
        Kind::try_from(self.0 % 65536).ok()
    }

    // Do an earlier record and a later one of another job conflict: steps on one cell, at least one a write, or an end and an open? The steps are 2 and 3, and are told by
    // a bit, as a record may hold a kind that there is not.
    pub(crate) fn conflicts_with(self, later: Record) -> bool {
        let steps = self.0 & later.0 & 2 != 0;
        let write = (self.0 | later.0) & 1 != 0;
        let meet = steps && write && self.cell() == later.cell();
        let in_time = self.is(Kind::End) && later.is(Kind::Open);
        self.job() != later.job() && (meet || in_time)
    }
}

// What records say of a job.
#[derive(Clone, Copy, Default)]
pub struct Marks {
    pub opened: bool,
    pub written: bool,
    pub ended: bool,
    pub abandoned: bool,
}

impl Marks {
    pub(crate) fn is_open(self) -> bool {
        self.opened && !self.ended && !self.abandoned
    }

    // No longer open.
    pub(crate) fn is_gone(self) -> bool {
        self.ended || self.abandoned
    }
}

// Of a kind that is none, the three low bits count.
pub(crate) fn marks_of(records: &[u64], job: u64) -> Marks {
    let mut marks = Marks::default();
    for x in records {
        let record = Record(*x);
        if record.job() == job {
            match Kind::try_from(record.kind() % 8) {
                Ok(Kind::Open) => marks.opened = true,
                Ok(Kind::Write) => marks.written = true,
                Ok(Kind::End) => marks.ended = true,
                Ok(Kind::Abandon) => marks.abandoned = true,
                _ => {}
            }
        }
    }
    marks
}

// A request, or a record of a log: eight bytes as one number, the low byte of each part first.

#[derive(Clone, Copy, PartialEq, Eq)]
pub enum Kind {
    Open = 1,
    Read = 2,
    Write = 3,
    End = 4,
    Abandon = 5,
    Publish = 6,
    Add = 7,
}

// A number that is no kind.
#[derive(Clone, Copy, PartialEq, Eq)]
pub struct UnknownKind(pub u64);

impl TryFrom<u64> for Kind {
    type Error = UnknownKind;

    fn try_from(number: u64) -> Result<Kind, UnknownKind> {
        match number {
            1 => Ok(Kind::Open),
            2 => Ok(Kind::Read),
            3 => Ok(Kind::Write),
            4 => Ok(Kind::End),
            5 => Ok(Kind::Abandon),
            6 => Ok(Kind::Publish),
            7 => Ok(Kind::Add),
            _ => Err(UnknownKind(number)),
        }
    }
}

// It stays one number, since a place of a list may be read as one, whatever stands there.
#[derive(Clone, Copy, PartialEq, Eq)]
pub struct Record(pub u64);

impl Record {
    // Of a kind that has no cell.
    pub(crate) fn of(kind: Kind, job: u64) -> Record {
        Record(kind as u64 | job << 32)
    }

    pub(crate) fn kind(self) -> u64 {
        self.0 % 256
    }

    pub(crate) fn cell(self) -> u64 {
        self.0 >> 16 & 65535
    }

    pub(crate) fn job(self) -> u64 {
        self.0 >> 32
    }

    pub(crate) fn is(self, kind: Kind) -> bool {
        self.kind() == kind as u64
    }

    // The kind, where it is one and byte 1 is 0.
    pub(crate) fn well_formed(self) -> Option<Kind> {
        if self.0 >> 8 & 255 != 0 {
            return None;
        }
        Kind::try_from(self.kind()).ok()
    }

    // Reads, writes, adds, and publishes, told by a bit: a request may hold a kind that there is not.
    pub(crate) fn is_step(self) -> bool {
        self.0 & 2 != 0
    }

    // The write of a publish; any other request is itself.
    pub(crate) fn step(self) -> Record {
        if self.is(Kind::Publish) {
            return Record(self.0 ^ 5);
        }
        self
    }

    // The mark stands in byte 1, which is 0 in what is kept: so the record and its mark are one number of the list.
    pub(crate) fn is_marked(self) -> bool {
        self.0 & 256 != 0
    }

    pub(crate) fn marked(self) -> Record {
        Record(self.0 | 256)
    }

    // Do an earlier record and a later one of another job conflict: steps on one cell, of two kinds or both writes, or an end and an open?
    pub(crate) fn conflicts_with(self, later: Record) -> bool {
        let meet = self.is_step() && later.is_step() && self.cell() == later.cell();
        let unlike = self.kind() != later.kind() || later.is(Kind::Write);
        let in_time = self.is(Kind::End) && later.is(Kind::Open);
        self.job() != later.job() && (meet && unlike || in_time)
    }
}

// What records say of a job.
#[derive(Clone, Copy, Default)]
pub struct Marks {
    pub opened: bool,
    pub altered: bool,
    pub ended: bool,
    pub abandoned: bool,
}

impl Marks {
    pub(crate) fn is_open(self) -> bool {
        self.opened && !self.ended && !self.abandoned
    }

    // Ended or open.
    pub(crate) fn is_kept(self) -> bool {
        self.opened && !self.abandoned
    }
}

// Of a kind that is none, the three low bits count.
pub(crate) fn marks_of(records: &[u64], job: u64) -> Marks {
    let mut marks = Marks::default();
    for x in records {
        let record = Record(*x);
        if record.job() == job {
            match Kind::try_from(record.kind() % 8) {
                Ok(Kind::Open) => marks.opened = true,
                Ok(Kind::Write | Kind::Add) => marks.altered = true,
                Ok(Kind::End) => marks.ended = true,
                Ok(Kind::Abandon) => marks.abandoned = true,
                _ => {}
            }
        }
    }
    marks
}

// How many opens are there?
pub(crate) fn open_records(records: &[u64]) -> usize {
    let opens = records.iter().filter(|x| Record(**x).is(Kind::Open));
    opens.count()
}

// How many jobs are open?
pub(crate) fn open_jobs(records: &[u64]) -> usize {
    let open = records.iter().filter(|x| {
        Record(**x).is(Kind::Open) && marks_of(records, Record(**x).job()).is_open()
    });
    open.count()
}

ghost use Rattle.std.specs.Prelude.{◌≤◌};

// The jobs of a log, of which there are `count`, in the order in which they were opened: the number of each, and how it stands. Then the records, told one by one. How a job stands is a number,
// as the table of jobs in `tallies` has it, and a record is told in four bytes (`lib.rt`, "The records"); past the jobs and the records every entry is 0.
#[derive(Drop)]
pub struct Table {
    pub numbers: [u32; 512],
    pub states: [u8; 512],
    pub told: [u32; 4096],
    pub count: usize,
    pub ghost few: { count ≤ 512 },
}

// How a job stands: open, and it has neither written nor added.
pub const OPEN: u8 = 1;

// Open, and it has written or added.
pub const WRITTEN: u8 = 2;

pub const ENDED: u8 = 3;

pub const ABANDONED: u8 = 4;

// The coarse mode, tried: requests with cells up to 65,535 and the replies expected to them, read from standard input and asked of the proved code, each history from a
// fresh state. The replies of the first histories are worked by hand, those of the streams after them come from an arbiter that keeps the whole history and goes by groups
// (bench/src/coarse.rs). The text says at its start how it is written. What is proved here is that the program is safe and ends.
#![tactic(auto)]

use archive::{Answer, Catalogue, JobNumber, Replied};

// ---- what is read

// So many bytes has a line, its end among them. What it says stands in columns.
const LINE: usize = 39;

// The number in a column, with blanks before it: a blank counts as 0. No column holds more than ten bytes.
// By hand: parse takes no blanks.
fn number(column: &[u8]) -> u64 {
    column.iter().fold(
        0,
        |value, byte| value % 1_000_000_000 * 10 + u64::from(*byte % 16),
    )
}

// Kind, byte 1, cell and job.
// Made by hand: bytes that are no request are asked, too.
fn request_in(line: &[u8; LINE]) -> [u8; 8] {
    let [kind, ..] = number(&line[0..3]).to_le_bytes();
    let [byte1, ..] = number(&line[4..7]).to_le_bytes();
    let [c0, c1, ..] = number(&line[8..13]).to_le_bytes();
    let [j0, j1, j2, j3, ..] = number(&line[14..24]).to_le_bytes();
    [kind, byte1, c0, c1, j0, j1, j2, j3]
}

// The first job of a history.
fn first_in(line: &[u8; LINE]) -> JobNumber {
    JobNumber((number(&line[14..24]) & 0xffff_ffff) as u32)
}

// ---- what is asked

// How often each code was given, at its place, and how many histories there were, how many requests and how many replies that were not as expected.
#[derive(Drop)]
struct Counts {
    codes: [u64; 10],
    histories: u64,
    requests: u64,
    differ: u64,
}

impl Counts {
    // A reply, and the code and the job that were expected.
    fn reply(&mut self, answer: Answer, code: u64, job: u64) {
        let said = answer.code();
        self.requests = self.requests.wrapping_add(1);
        if let Some(given) = self.codes.get_mut(said as usize) {
            *given = given.wrapping_add(1);
        }
        if u64::from(said) != code || u64::from(answer.job().0) != job {
            self.differ = self.differ.wrapping_add(1);
        }
    }
}

// Each line is a comment, the start of a history with its first number, or a request with the code and the job expected.
fn try_lines(lines: &[[u8; LINE]]) -> Counts {
    let mut counts = Counts {
        codes: [0; 10],
        histories: 0,
        requests: 0,
        differ: 0,
    };
    let mut catalogue = Catalogue::fresh(JobNumber(0));
    for line in lines {
        match line[0] {
            b'#' => {}
            b'h' => {
                counts.histories = counts.histories.wrapping_add(1);
                catalogue = Catalogue::fresh(first_in(line));
            }
            _ => {
                let (stepped, answer) = catalogue.step(request_in(line));
                catalogue = stepped;
                counts.reply(answer, number(&line[25..27]), number(&line[28..38]));
            }
        }
    }
    counts
}

// ---- what is written

fn say(rt: &impl Print, counts: &Counts) {
    host::print_decimal(rt, counts.histories);
    host::write_all(rt, b" histories, codes 0 to 9:");
    for given in counts.codes {
        host::write_all(rt, b" ");
        host::print_decimal(rt, given);
    }
    host::write_all(rt, b"\n");
    host::print_decimal(rt, counts.requests);
    host::write_all(rt, b" requests, ");
    host::print_decimal(rt, counts.differ);
    host::write_all(rt, b" differ\n");
}

fn main(rt: HostRuntime) {
    let mut space = [0u8; 131072];
    let count = host::read_full(&mut rt.stdin(), &mut space);
    let (lines, _) = space[..count].as_chunks::<LINE>();
    say(&rt, &try_lines(lines));
}

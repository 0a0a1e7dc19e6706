// Three rooms against one: request records from standard input, to its end, each asked of the network of three stations and of the one scheduler, and what they answer is compared,
// code and job. On standard output one line: how many requests there were, how many got each code, how many granted steps each station made, and how many answers differed. The cells
// are spread over the stations first: a cell becomes 85 times itself, modulo 256, which no two cells share, so that cells that stand side by side come to different stations.
// A tail of 1 to 7 bytes is not read. What is proved here is that the program is safe and ends; that no answer differs is a theorem of the crate `stations`.
#![tactic(auto)]

use arbiter::{JobNumber, Replied, State};
use cells::Cell;
use network::{Network, Station, station_of};
use slots::Kind;
use std::io::Read;

// ---- counts

#[derive(Drop)]
struct Counts {
    requests: u64,
    codes: [u64; 10],
    stations: [u64; 3],
    differ: u64,
}

// One more at a place, where there is such a place.
fn bump(counts: &mut [u64], i: usize) {
    if let Some(count) = counts.get_mut(i) {
        *count = count.wrapping_add(1);
    }
}

// ---- one request

// A read, a write, an add, or a publish with its write.
fn is_step(kind: u8) -> bool {
    matches!(
        Kind::try_from(kind),
        Ok(Kind::Read | Kind::Write | Kind::Publish | Kind::Add)
    )
}

fn spread_request(bytes: [u8; 8]) -> [u8; 8] {
    let mut request = bytes;
    request[2] = request[2].wrapping_mul(85);
    request
}

// No job, and every row blank at every station.
fn fresh_rooms() -> Network {
    let blank = Station {
        leads: [0; 32],
        sets: [0; 512],
    };
    Network {
        next: 1,
        free: 0xffff_ffff,
        numbers: [0; 32],
        ports: [0; 3],
        stations: [blank; 3],
    }
}

// Where a run stands: the three rooms, and the one, with what is counted.
#[derive(Drop)]
struct Run {
    rooms: Network,
    one: State,
    counts: Counts,
}

impl Run {
    fn start() -> Run {
        Run {
            rooms: fresh_rooms(),
            one: State::fresh(JobNumber(1)),
            counts: Counts {
                requests: 0,
                codes: [0; 10],
                stations: [0; 3],
                differ: 0,
            },
        }
    }

    fn turn(&mut self, bytes: [u8; 8]) {
        let request = spread_request(bytes);
        let answer = self.rooms.ask(request);
        let single = self.one.ask(request);
        let counts = &mut self.counts;
        counts.requests = counts.requests.wrapping_add(1);
        bump(&mut counts.codes, answer.code() as usize);
        if answer.is_ok() && is_step(request[0]) {
            bump(&mut counts.stations, station_of(Cell(request[2])));
        }
        if answer != single {
            counts.differ = counts.differ.wrapping_add(1);
        }
    }

    // All of standard input, a record at a time: `host::hand_on` would want a buffer and a `Sink` for no more than this.
    fn all(&mut self, input: &mut impl Read) {
        // No input outlives so many turns.
        for _ in 0..4611686018427387904u64 {
            let mut bytes = [0u8; 8];
            if host::read_full(input, &mut bytes) < 8 {
                break;
            }
            self.turn(bytes);
        }
    }
}

// ---- the run

fn say(rt: &impl Print, words: &[u8]) {
    host::write_all(rt, words);
}

fn say_counts(rt: &impl Print, counts: &[u64]) {
    for count in counts {
        say(rt, b" ");
        host::print_decimal(rt, *count);
    }
}

fn main(rt: HostRuntime) {
    let mut run = Run::start();
    run.all(&mut rt.stdin());
    let counts = &run.counts;
    say(&rt, b"three rooms:");
    say_counts(&rt, &[counts.requests]);
    say(&rt, b" requests; codes 0 to 9:");
    say_counts(&rt, &counts.codes);
    say(&rt, b"; steps at stations 0 to 2:");
    say_counts(&rt, &counts.stations);
    say(&rt, b"; differ:");
    say_counts(&rt, &[counts.differ]);
    say(&rt, b"\n");
}

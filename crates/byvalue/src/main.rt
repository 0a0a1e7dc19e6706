// The step by value, on its own: request records from standard input to its end, each made of a state that is handed on by value, and one line on standard
// output: the requests, how many were granted, and a sum that every reply goes into. It writes no line for a request, so that nearly all of its cost is the
// step's. It reads into what is left of 64 KiB behind the bytes that wait, and makes the requests once there are 32 KiB, or at the end. A tail of 1 to 7 bytes
// is not read.
#![tactic(auto)]

use arbiter::{Answer, JobNumber, Replied, State};
use host::Sink;

// How many requests were made and granted so far, and the sum of their replies.
#[derive(Clone, Copy)]
struct Tally {
    requests: u64,
    granted: u64,
    sum: u32,
}

impl Tally {
    // An answer more. The sum stays below a prime that is below 2 ^ 32, and what is summed is far below 2 ^ 64.
    fn count(&mut self, answer: Answer) {
        self.requests = self.requests.wrapping_add(1);
        if answer.is_ok() {
            self.granted = self.granted.wrapping_add(1);
        }
        let code = answer.code() as u64;
        let job = answer.job().0 as u64;
        self.sum = (((self.sum as u64) * 31 + code * 7 + job) % 4294967291) as u32;
    }
}

// Where a run stands.
#[derive(Drop)]
struct Run {
    state: State,
    tally: Tally,
}

impl Sink for Run {
    // The whole records of a part. The state is handed on by value from step to step.
    fn take(&mut self, part: &[u8]) -> bool {
        let (requests, _) = part.as_chunks::<8>();
        let mut state = self.state;
        for request in requests {
            let (next, answer) = state.step(*request);
            state = next;
            self.tally.count(answer);
        }
        self.state = state;
        true
    }
}

fn main(rt: HostRuntime) {
    let mut run = Run {
        state: State::fresh(JobNumber(1)),
        tally: Tally {
            requests: 0,
            granted: 0,
            sum: 0,
        },
    };
    let mut space = host::large_buffer();
    host::hand_on(&mut rt.stdin(), &mut space, &mut run);
    host::print_count(&rt, run.tally.requests, b" requests, ");
    host::print_count(&rt, run.tally.granted, b" granted, ");
    host::print_count(&rt, run.tally.sum as u64, b"\n");
}

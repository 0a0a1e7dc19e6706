// The trial program: request records from standard input to its end, and a line for each on standard output. It reads into what is left of 64 KiB behind
// the bytes that wait, and answers them once there are 32 KiB, or at the end.
#![tactic(auto)]

use arbiter::{JobNumber, State};
use host::Sink;
use std::io::Read;

// Where the requests of the input go: the state, the place of the next, and room for the lines of a part.
// The program `locked` has `take` and `run` of the same shape: one over `lines::Profile` would need its last line as a hook for one of the two.
#[derive(Drop)]
struct Trial<'a, 'b, P> {
    rt: &'a P,
    out: &'b mut [u8],
    state: State,
    place: u64,
}

impl<P: Print> Sink for Trial<'_, '_, P> {
    // The lines of a part, written. No more is taken where there was no room for them, or a write failed.
    fn take(&mut self, part: &[u8]) -> bool {
        let Some(bytes) = lines::lines(self.place, &mut self.state, part, self.out) else {
            return false;
        };
        self.place += (part.len() / 8) as u64;
        host::write_all(self.rt, &self.out[..bytes])
    }
}

fn run(rt: &impl Print, input: &mut impl Read, buf: &mut [u8], out: &mut [u8]) {
    let n = lines::header(out);
    if !host::write_all(rt, &out[..n]) {
        return;
    }
    let mut trial = Trial {
        rt,
        out,
        state: State::fresh(JobNumber(1)),
        place: 0,
    };
    let Some(left) = host::hand_on(input, buf, &mut trial) else {
        return;
    };
    let last = lines::tail(left as u64, out);
    host::write_all(rt, &out[..last]);
}

fn main(rt: HostRuntime) {
    let mut space = host::large_buffer();
    let mut room = [0u8; 360448];
    run(&rt, &mut rt.stdin(), &mut space, &mut room);
}

// The program `locked`: request records from standard input to its end, each answered by plain locks, and a line for each on standard output as the trial program prints them; after any
// tail a line with the number that was put off. It reads as the trial program does, into what is left of 64 KiB behind the bytes that wait, and answers them once there are 32 KiB, or at
// the end.
#![tactic(auto)]

use arbiter::{JobNumber, State};
use host::Sink;
use std::io::Read;

// Where the requests of the input go: the state, the place of the next, how many were put off, and room for the lines of a part. The trial program has one of the same shape, but for what was put
// off: what the two share stands in `host` and `lines`, which does no I/O, and what writes in each program:
// one `take` and `run` over `lines::Profile` would need the last line as a hook for one of the two.
#[derive(Drop)]
struct Locked<'a, 'b, P> {
    rt: &'a P,
    out: &'b mut [u8],
    state: State,
    place: u64,
    off: u64,
}

impl<P: Print> Sink for Locked<'_, '_, P> {
    // The lines of a part, written. No more is taken where there was no room for them, or a write failed. No input outlives so many requests that their number does not fit.
    fn take(&mut self, part: &[u8]) -> bool {
        let Some(written) = locklines::lock_lines(self.place, &mut self.state, part, self.out)
        else {
            return false;
        };
        self.place += (part.len() / 8) as u64;
        self.off = self.off.wrapping_add(written.counted);
        host::write_all(self.rt, &self.out[..written.bytes])
    }
}

fn run(rt: &impl Print, input: &mut impl Read, buf: &mut [u8], out: &mut [u8]) {
    let n = lines::header(out);
    if !host::write_all(rt, &out[..n]) {
        return;
    }
    let mut locked = Locked {
        rt,
        out,
        state: State::fresh(JobNumber(1)),
        place: 0,
        off: 0,
    };
    let Some(left) = host::hand_on(input, buf, &mut locked) else {
        return;
    };
    let off = locked.off;
    let last = lines::tail(left as u64, out);
    if !host::write_all(rt, &out[..last]) {
        return;
    }
    let end = locklines::off_line(off, out);
    host::write_all(rt, &out[..end]);
}

fn main(rt: HostRuntime) {
    let mut space = host::large_buffer();
    let mut room = [0u8; 360448];
    run(&rt, &mut rt.stdin(), &mut space, &mut room);
}

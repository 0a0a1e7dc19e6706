// The arbiter: the state by value and its step, a run of requests, and what C and Rust link. The work is done in place on what a state holds, in the crate `slots`
// (`step_in_place`, and for the second profile `late_in_place` and `publish_in_place`): a state is asked in place (`ask`), and the step by value asks its own copy.
#![tactic(auto)]

ghost use Rattle.std.specs.Prelude.{◌≡◌, List, [], ◌++◌, ℕ, ◌+◌, ◌≤◌, length, take, drop};
ghost use Rattle.history.specs.Formats.{bytes_of, request_of};
ghost use Rattle.held.specs.Held.{fresh_held, answer_to, after};
ghost use Rattle.late.specs.Late.{asks, publishes};
ghost use Rattle.late.specs.LateHeld.{late_answer, late_next};
ghost use Rattle.slots.specs.Lent.{lent, numbered, packed};
ghost use Rattle.arbiter.specs.Replay.{held_of, replayed, told};

use cells::CellSet;
pub use codes::Told;
pub use slots::{
    Answer, JobNumber, Refusal, Replied, in_one, late_in_place, publish_in_place, step_in_place,
};

// ---- the state by value

#[derive(Clone, Copy, PartialEq, Eq)]
pub struct State {
    pub next: u64,
    pub free: u32,
    pub numbers: [u32; 32],
    pub leads: [u32; 32],
    pub sets: [u64; 512],
    pub ports: [u32; 3],
}

impl State {
    // At most so many jobs are open at once; so many cells there are; so many jobs are opened in one log.
    pub const SLOTS: usize = 32;

    pub const CELLS: usize = 256;

    pub const JOBS: usize = 512;

    // No job open. The first job gets the first number.
    pub fn fresh(first: JobNumber) -> State
        ensures { held_of result ≡ fresh_held first.0 }
    {
        State {
            next: u64::from(first.0),
            free: 0xffff_ffff,
            numbers: [0; 32],
            leads: [0; 32],
            sets: [0; 512],
            ports: [0; 3],
        }
    }

    // One request, in place. A refusal leaves the state as it was.
    pub fn ask(&mut self, request: [u8; 8]) -> Answer
        ensures answered { numbered result ≡ answer_to (held_of self.old) (request_of request) }
        ensures left { held_of self.new ≡ after (held_of self.old) (request_of request) }
    {
        step_in_place(
            &mut self.next,
            &mut self.free,
            &mut self.numbers,
            &mut self.leads,
            &mut self.sets,
            &mut self.ports,
            request,
        )
    }

    // The same in the second profile: an open, a read or an abandon. It differs in the call and in the laws of both its clauses, as `late_step` does from `step`: a trait over the two
    // would be longer than the second function.
    pub fn late_ask(&mut self, request: [u8; 8]) -> Answer
        ensures answered { numbered result ≡ late_answer (held_of self.old) (asks (request_of request)) }
        ensures left { held_of self.new ≡ late_next (held_of self.old) (asks (request_of request)) }
    {
        late_in_place(
            &mut self.next,
            &mut self.free,
            &mut self.numbers,
            &mut self.leads,
            &mut self.sets,
            &mut self.ports,
            request,
        )
    }

    // And a publish: the job writes the cells and ends.
    pub fn late_publish(&mut self, job: JobNumber, cells: CellSet) -> Answer
        ensures answered { numbered result ≡ late_answer (held_of self.old) (publishes job.0 cells.words) }
        ensures left { held_of self.new ≡ late_next (held_of self.old) (publishes job.0 cells.words) }
    {
        publish_in_place(
            &mut self.free,
            &mut self.numbers,
            &mut self.leads,
            &mut self.sets,
            job,
            cells,
        )
    }

    // The state after one request, with the answer. A refusal leaves the state as it was.
    pub fn step(mut self, request: [u8; 8]) -> (State, Answer)
        ensures answered { numbered result.1 ≡ answer_to (held_of self) (request_of request) }
        ensures left { held_of result.0 ≡ after (held_of self) (request_of request) }
    {
        let answer = self.ask(request);
        (self, answer)
    }

    // The same in the second profile: an open, a read or an abandon.
    pub fn late_step(mut self, request: [u8; 8]) -> (State, Answer)
        ensures answered { numbered result.1 ≡ late_answer (held_of self) (asks (request_of request)) }
        ensures left { held_of result.0 ≡ late_next (held_of self) (asks (request_of request)) }
    {
        let answer = self.late_ask(request);
        (self, answer)
    }

    // And a publish: the job writes the cells and ends.
    pub fn publish(mut self, job: JobNumber, cells: CellSet) -> (State, Answer)
        ensures answered { numbered result.1 ≡ late_answer (held_of self) (publishes job.0 cells.words) }
        ensures left { held_of result.0 ≡ late_next (held_of self) (publishes job.0 cells.words) }
    {
        let answer = self.late_publish(job, cells);
        (self, answer)
    }
}

// ---- many requests

// The answers of a run have no room.
#[derive(Clone, Copy, Debug, PartialEq, Eq)]
pub struct NoRoom;

// Code 24, and place 0.
impl Told for NoRoom {
    ghost number = { λ _. 24 };

    ghost place_of = { λ _. 0 };

    fn code(self) -> u32 {
        24
    }

    fn place(self) -> usize {
        0
    }
}

// How a run takes a state one request on.
trait Way {
    fn ask(state: &mut State, request: [u8; 8]) -> Answer
        ensures answered { numbered result ≡ answer_to (held_of state.old) (request_of request) }
        ensures left { held_of state.new ≡ after (held_of state.old) (request_of request) };
}

// In place.
struct InPlace;

impl Way for InPlace {
    fn ask(state: &mut State, request: [u8; 8]) -> Answer {
        state.ask(request)
    }
}

// The state handed on by value.
struct ByValue;

impl Way for ByValue {
    fn ask(state: &mut State, request: [u8; 8]) -> Answer {
        let (stepped, answer) = state.step(request);
        *state = stepped;
        answer
    }
}

// The eight bytes from a place on. By place, here and in `run`: `replayed` and the laws of a run (`ReplayLaws`) are said of places, of the requests and of the answers alike.
fn request_at(requests: &[u8], at: usize) -> [u8; 8]
    requires { at + 8 ≤ length requests.now }
    ensures { result ≡ take 8 (drop at requests.now) }
{
    let mut request = [0u8; 8];
    request.copy_from_slice(&requests[at..at + 8]);
    request
}

// Four bytes of a number, low byte first, from a place on. One line, as in `blockwriter`; the contract is said with take and drop, as `replayed` is, and there with `with_run`.
fn put_number(bytes: &mut [u8], at: usize, n: u32)
    requires { at + 4 ≤ length bytes.old }
    ensures { bytes.new ≡ take at bytes.old ++ bytes_of 4 n ++ drop (at + 4) bytes.old }
{
    bytes[at..at + 4].copy_from_slice(&n.to_le_bytes());
}

// The whole records of `requests` from a fresh state, eight bytes of answer for each: code and job. A tail of 1 to 7 bytes is not read; bytes of `answers` past
// those written stay. Where the room is short nothing is written.
fn run<W: Way>(first: JobNumber, requests: &[u8], answers: &mut [u8]) -> Result<usize, NoRoom>
    ensures { told result answers.new ≡ replayed first.0 requests.now answers.old }
{
    let count = requests.len() / 8;
    if answers.len() / 8 < count {
        return Err(NoRoom);
    }
    let mut state = State::fresh(first);
    for i in 0..count {
        let request = request_at(requests, i * 8);
        let answer = W::ask(&mut state, request);
        put_number(answers, i * 8, answer.code());
        put_number(answers, i * 8 + 4, answer.job().0);
    }
    Ok(count * 8)
}

// The run in place: the bytes written.
pub fn replay(first: JobNumber, requests: &[u8], answers: &mut [u8]) -> Result<usize, NoRoom>
    ensures { told result answers.new ≡ replayed first.0 requests.now answers.old }
{
    run::<InPlace>(first, requests, answers)
}

// ---- as hosts call them; the crate `arbiter_c` exports each to C and Rust

// How a run is told to a host: code 0 with the bytes written, or 24 with none.
fn tell(outcome: Result<usize, NoRoom>, written: &mut u64) -> u32
    ensures { record { code = result; place = written.new; bytes = [] } ≡ told outcome [] }
{
    *written = outcome.place() as u64;
    outcome.code()
}

// `replay`: the code. `written` gets the bytes written.
pub fn reedtangle_replay(first: u32, requests: &[u8], answers: &mut [u8], written: &mut u64) -> u32
    ensures { record { code = result; place = written.new; bytes = answers.new } ≡ replayed first requests.now answers.old }
{
    tell(replay(JobNumber(first), requests, answers), written)
}

// The same with the state handed on by value from step to step, for hosts that want to see what that costs.
pub fn reedtangle_replay_by_value(
    first: u32,
    requests: &[u8],
    answers: &mut [u8],
    written: &mut u64,
) -> u32
    ensures { record { code = result; place = written.new; bytes = answers.new } ≡ replayed first requests.now answers.old }
{
    tell(run::<ByValue>(JobNumber(first), requests, answers), written)
}

// One request on the state that the host keeps, lent part by part as C has it: code times 2^32 plus job.
pub fn reedtangle_step(
    next: &mut u64,
    free: &mut u32,
    numbers: &mut [u32; 32],
    leads: &mut [u32; 32],
    sets: &mut [u64; 512],
    ports: &mut [u32; 3],
    request: &[u8; 8],
) -> u64
    ensures { (result ≡ packed (answer_to (lent next.old free.old numbers.old leads.old sets.old ports.old) (request_of request.now)))
        × (lent next.new free.new numbers.new leads.new sets.new ports.new ≡ after (lent next.old free.old numbers.old leads.old sets.old ports.old) (request_of request.now)) }
{
    in_one(step_in_place(next, free, numbers, leads, sets, ports, *request))
}

// One request of the second profile on it.
pub fn reedtangle_late_step(
    next: &mut u64,
    free: &mut u32,
    numbers: &mut [u32; 32],
    leads: &mut [u32; 32],
    sets: &mut [u64; 512],
    ports: &mut [u32; 3],
    request: &[u8; 8],
) -> u64
    ensures { (result ≡ packed (late_answer (lent next.old free.old numbers.old leads.old sets.old ports.old) (asks (request_of request.now))))
        × (lent next.new free.new numbers.new leads.new sets.new ports.new ≡ late_next (lent next.old free.old numbers.old leads.old sets.old ports.old) (asks (request_of request.now))) }
{
    in_one(late_in_place(next, free, numbers, leads, sets, ports, *request))
}

// The publish of the second profile on it: a job and the four words of a cell set. It opens nothing, and so the ports are not lent: they stay, whatever they are.
pub fn reedtangle_publish(
    next: &mut u64,
    free: &mut u32,
    numbers: &mut [u32; 32],
    leads: &mut [u32; 32],
    sets: &mut [u64; 512],
    job: u32,
    cells: &[u64; 4],
) -> u64
    ensures { (ports : List ℕ) → (result ≡ packed (late_answer (lent next.old free.old numbers.old leads.old sets.old ports) (publishes job cells.now)))
        × (lent next.new free.new numbers.new leads.new sets.new ports ≡ late_next (lent next.old free.old numbers.old leads.old sets.old ports) (publishes job cells.now)) }
{
    let cells = CellSet { words: *cells };
    in_one(publish_in_place(free, numbers, leads, sets, JobNumber(job), cells))
}

// The fresh state, in what the host keeps: written there straight, without a `State` of more than four thousand bytes in between.
pub fn reedtangle_fresh(
    first: u32,
    next: &mut u64,
    free: &mut u32,
    numbers: &mut [u32; 32],
    leads: &mut [u32; 32],
    sets: &mut [u64; 512],
    ports: &mut [u32; 3],
)
    ensures { lent next.new free.new numbers.new leads.new sets.new ports.new ≡ fresh_held first }
{
    *next = u64::from(first);
    *free = 0xffff_ffff;
    *numbers = [0; 32];
    *leads = [0; 32];
    *sets = [0; 512];
    *ports = [0; 3];
}

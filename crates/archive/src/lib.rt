// The coarse mode of the first profile, for the archive of document 02, order 11: one request in place, on the arrays of a state that are lent (`coarse_in_place`), the state by value
// with its step, and what C and Rust link. Cells 0 to 4,095 stand in 256 groups of 16, and a request is answered, and moves the state, as in the exact mode with its cell's group for its cell:
// the work is done by `step_in_place` of the crate `slots`. The state is lent part by part, as C lends it (`reedtangle_coarse_step`).
#![tactic(auto)]

ghost use Rattle.std.specs.Prelude.{◌≡◌, ◌+◌, ◌*◌};
ghost use Rattle.history.specs.Formats.{request_of};
ghost use Rattle.held.specs.Held.{fresh_held};
ghost use Rattle.coarse.specs.Coarse.{group, in_group};
ghost use Rattle.coarse.specs.CoarseHeld.{coarse_answer, coarse_next};
ghost use Rattle.slots.specs.Lent.{lent, numbered};
ghost use Rattle.arbiter.specs.Replay.{held_of};

use arbiter::State;
pub use arbiter::{Answer, JobNumber, Refusal, Replied};
use slots::{in_one, step_in_place};

// So many cells are of one group.
const GROUP: u16 = 16;

// The request with its cell's group in the place of its cell. The kind is not asked: where it has no cell, the cell field is not looked at.
fn in_group(request: [u8; 8]) -> [u8; 8]
    ensures { request_of result ≡ in_group group (request_of request) }
{
    let cell = u16::from_le_bytes([request[2], request[3]]);
    let group = (cell / GROUP).to_le_bytes();
    [
        request[0], request[1], group[0], group[1], request[4], request[5], request[6], request[7],
    ]
}

// One request of the coarse mode in place: the state is lent. A refusal leaves all of it as it was; 2 means a cell above 4,095.
pub fn coarse_in_place(
    next: &mut u64,
    free: &mut u32,
    numbers: &mut [u32; 32],
    leads: &mut [u32; 32],
    sets: &mut [u64; 512],
    ports: &mut [u32; 3],
    request: [u8; 8],
) -> Answer
    ensures { (numbered result ≡ coarse_answer (lent next.old free.old numbers.old leads.old sets.old ports.old) (request_of request))
        × (lent next.new free.new numbers.new leads.new sets.new ports.new ≡ coarse_next (lent next.old free.old numbers.old leads.old sets.old ports.old) (request_of request)) }
{
    let grouped = in_group(request);
    step_in_place(next, free, numbers, leads, sets, ports, grouped)
}

// ---- the state by value

// A state of the coarse mode. It holds what a state of the exact mode does and is a type of its own, as its sets are of groups: a state goes on in the mode that it was started in.
#[derive(Clone, Copy, PartialEq, Eq)]
pub struct Catalogue(pub State);

impl Catalogue {
    // So many cells there are.
    pub const CELLS: usize = 4096;

    // No job open. The first job gets the first number.
    pub fn fresh(first: JobNumber) -> Catalogue
        ensures { held_of result.0 ≡ fresh_held first.0 }
    {
        Catalogue(State::fresh(first))
    }

    // One request, in place. A refusal leaves the state as it was. By `coarse_in_place`, as the call for C: the parts are lent one by one, as C lends them.
    pub fn ask(&mut self, request: [u8; 8]) -> Answer
        ensures answered { numbered result ≡ coarse_answer (held_of self.old.0) (request_of request) }
        ensures left { held_of self.new.0 ≡ coarse_next (held_of self.old.0) (request_of request) }
    {
        coarse_in_place(
            &mut self.0.next,
            &mut self.0.free,
            &mut self.0.numbers,
            &mut self.0.leads,
            &mut self.0.sets,
            &mut self.0.ports,
            request,
        )
    }

    // The state after one request, with the answer. A refusal leaves the state as it was.
    pub fn step(mut self, request: [u8; 8]) -> (Catalogue, Answer)
        ensures answered { numbered result.1 ≡ coarse_answer (held_of self.0) (request_of request) }
        ensures left { held_of result.0.0 ≡ coarse_next (held_of self.0) (request_of request) }
    {
        let answer = self.ask(request);
        (self, answer)
    }
}

// ---- as hosts call it; the crate `archive_c` exports it to C and Rust

// One request on the state that the host keeps: code times 2^32 plus job. A fresh state is that of the exact mode, and the two modes do not take turns at one state.
pub fn reedtangle_coarse_step(
    next: &mut u64,
    free: &mut u32,
    numbers: &mut [u32; 32],
    leads: &mut [u32; 32],
    sets: &mut [u64; 512],
    ports: &mut [u32; 3],
    request: &[u8; 8],
) -> u64
    ensures { (result ≡ (coarse_answer (lent next.old free.old numbers.old leads.old sets.old ports.old) (request_of request.now)).code * 4294967296
        + (coarse_answer (lent next.old free.old numbers.old leads.old sets.old ports.old) (request_of request.now)).job)
        × (lent next.new free.new numbers.new leads.new sets.new ports.new ≡ coarse_next (lent next.old free.old numbers.old leads.old sets.old ports.old) (request_of request.now)) }
{
    in_one(coarse_in_place(next, free, numbers, leads, sets, ports, *request))
}

// The arbiter for C and Rust: what they link, each a call of the function of the same name in `arbiter`. The archive is `libarbiter.a` (tools/build.sh).
#![tactic(auto)]

ghost use Rattle.std.specs.Prelude.{◌≡◌, List, ℕ};
ghost use Rattle.history.specs.Formats.{request_of};
ghost use Rattle.held.specs.Held.{fresh_held, answer_to, after};
ghost use Rattle.late.specs.Late.{asks, publishes};
ghost use Rattle.late.specs.LateHeld.{late_answer, late_next};
ghost use Rattle.slots.specs.Lent.{lent, packed};
ghost use Rattle.arbiter.specs.Replay.{replayed};

// `replay`: the code. `written` gets the bytes written.
#[unsafe(no_mangle)]
pub extern "C" fn reedtangle_replay(
    first: u32,
    requests: &[u8],
    answers: &mut [u8],
    written: &mut u64,
) -> u32
    ensures { record { code = result; place = written.new; bytes = answers.new } ≡ replayed first requests.now answers.old }
{
    arbiter::reedtangle_replay(first, requests, answers, written)
}

// The same with the state handed on by value from step to step, for hosts that want to see what that costs.
#[unsafe(no_mangle)]
pub extern "C" fn reedtangle_replay_by_value(
    first: u32,
    requests: &[u8],
    answers: &mut [u8],
    written: &mut u64,
) -> u32
    ensures { record { code = result; place = written.new; bytes = answers.new } ≡ replayed first requests.now answers.old }
{
    arbiter::reedtangle_replay_by_value(first, requests, answers, written)
}

// One request on the state that the host keeps: code times 2^32 plus job.
#[unsafe(no_mangle)]
pub extern "C" fn reedtangle_step(
    next: &mut u64,
    free: &mut u32,
    numbers: &mut [u32; 32],
    leads: &mut [u32; 32],
    sets: &mut [u64; 512],
    ports: &mut [u32; 3],
    request: &[u8; 8],
) -> u64
    ensures { (result ≡ packed (answer_to (lent next.old free.old numbers.old leads.old sets.old ports.old) (request_of request.now)))
        × (lent next.new free.new numbers.new leads.new sets.new ports.new ≡ after (lent next.old free.old numbers.old leads.old sets.old ports.old) (request_of request.now)) }
{
    arbiter::reedtangle_step(next, free, numbers, leads, sets, ports, request)
}

// One request of the second profile on it.
#[unsafe(no_mangle)]
pub extern "C" fn reedtangle_late_step(
    next: &mut u64,
    free: &mut u32,
    numbers: &mut [u32; 32],
    leads: &mut [u32; 32],
    sets: &mut [u64; 512],
    ports: &mut [u32; 3],
    request: &[u8; 8],
) -> u64
    ensures { (result ≡ packed (late_answer (lent next.old free.old numbers.old leads.old sets.old ports.old) (asks (request_of request.now))))
        × (lent next.new free.new numbers.new leads.new sets.new ports.new ≡ late_next (lent next.old free.old numbers.old leads.old sets.old ports.old) (asks (request_of request.now))) }
{
    arbiter::reedtangle_late_step(next, free, numbers, leads, sets, ports, request)
}

// The publish of the second profile on it: a job and the four words of a cell set. It opens nothing, and so the ports are not lent: they stay, whatever they are.
#[unsafe(no_mangle)]
pub extern "C" fn reedtangle_publish(
    next: &mut u64,
    free: &mut u32,
    numbers: &mut [u32; 32],
    leads: &mut [u32; 32],
    sets: &mut [u64; 512],
    job: u32,
    cells: &[u64; 4],
) -> u64
    ensures { (ports : List ℕ) → (result ≡ packed (late_answer (lent next.old free.old numbers.old leads.old sets.old ports) (publishes job cells.now)))
        × (lent next.new free.new numbers.new leads.new sets.new ports ≡ late_next (lent next.old free.old numbers.old leads.old sets.old ports) (publishes job cells.now)) }
{
    arbiter::reedtangle_publish(next, free, numbers, leads, sets, job, cells)
}

// The fresh state, in what the host keeps.
#[unsafe(no_mangle)]
pub extern "C" fn reedtangle_fresh(
    first: u32,
    next: &mut u64,
    free: &mut u32,
    numbers: &mut [u32; 32],
    leads: &mut [u32; 32],
    sets: &mut [u64; 512],
    ports: &mut [u32; 3],
)
    ensures { lent next.new free.new numbers.new leads.new sets.new ports.new ≡ fresh_held first }
{
    arbiter::reedtangle_fresh(first, next, free, numbers, leads, sets, ports)
}

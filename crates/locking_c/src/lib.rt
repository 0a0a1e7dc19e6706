// The run by plain locks for C and Rust: what they link, a call of the function of the same name in `locking`. The archive is `liblocking.a` (tools/build.sh).
#![tactic(auto)]

ghost use Rattle.std.specs.Prelude.{◌≡◌};
ghost use Rattle.history.specs.Formats.{request_of};
ghost use Rattle.slots.specs.Lent.{lent, packed};
ghost use Rattle.locks.specs.LocksHeld.{lock_answer, lock_next};

// One request by locks on the state that the host keeps: code times 2^32 plus job.
#[unsafe(no_mangle)]
pub extern "C" fn reedtangle_lock_step(
    next: &mut u64,
    free: &mut u32,
    numbers: &mut [u32; 32],
    leads: &mut [u32; 32],
    sets: &mut [u64; 512],
    ports: &mut [u32; 3],
    request: &[u8; 8],
) -> u64
    ensures { (result ≡ packed (lock_answer (lent next.old free.old numbers.old leads.old sets.old ports.old) (request_of request.now)))
        × (lent next.new free.new numbers.new leads.new sets.new ports.new ≡ lock_next (lent next.old free.old numbers.old leads.old sets.old ports.old) (request_of request.now)) }
{
    locking::reedtangle_lock_step(next, free, numbers, leads, sets, ports, request)
}

// The coarse mode for C and Rust: what they link, a call of the function of the same name in `archive`. The archive is `libarchive.a` (tools/build.sh).
#![tactic(auto)]

ghost use Rattle.std.specs.Prelude.{◌≡◌, ◌+◌, ◌*◌};
ghost use Rattle.history.specs.Formats.{request_of};
ghost use Rattle.coarse.specs.CoarseHeld.{coarse_answer, coarse_next};
ghost use Rattle.slots.specs.Lent.{lent};

// One request on the state that the host keeps: code times 2^32 plus job. A fresh state is that of the exact mode, and the two modes do not take turns at one state.
#[unsafe(no_mangle)]
pub extern "C" fn reedtangle_coarse_step(
    next: &mut u64,
    free: &mut u32,
    numbers: &mut [u32; 32],
    leads: &mut [u32; 32],
    sets: &mut [u64; 512],
    ports: &mut [u32; 3],
    request: &[u8; 8],
) -> u64
    ensures { (result ≡ (coarse_answer (lent next.old free.old numbers.old leads.old sets.old ports.old) (request_of request.now)).code * 4294967296
        + (coarse_answer (lent next.old free.old numbers.old leads.old sets.old ports.old) (request_of request.now)).job)
        × (lent next.new free.new numbers.new leads.new sets.new ports.new ≡ coarse_next (lent next.old free.old numbers.old leads.old sets.old ports.old) (request_of request.now)) }
{
    archive::reedtangle_coarse_step(next, free, numbers, leads, sets, ports, request)
}

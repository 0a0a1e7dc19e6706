// Batches for C and Rust: what they link, a call of the function of the same name in `batch`. The archive is `libbatch.a` (tools/build.sh).
#![tactic(auto)]

ghost use Rattle.std.specs.Prelude.{◌≡◌, List, ℕ};
ghost use Rattle.slots.specs.Lent.{lent};
ghost use Rattle.batch.specs.Batch.{batch, batch_leaves, packed};

// `batch_in_place` on the state that the host keeps: code times 2^32 plus place.
#[unsafe(no_mangle)]
pub extern "C" fn reedtangle_batch(
    next: &mut u64,
    free: &mut u32,
    numbers: &mut [u32; 32],
    leads: &mut [u32; 32],
    sets: &mut [u64; 512],
    requests: &[u8],
) -> u64
    ensures { (ports : List ℕ) → (result ≡ packed (batch (lent next.old free.old numbers.old leads.old sets.old ports) requests.now))
        × (lent next.new free.new numbers.new leads.new sets.new ports ≡ batch_leaves (lent next.old free.old numbers.old leads.old sets.old ports) requests.now) }
{
    batch::reedtangle_batch(next, free, numbers, leads, sets, requests)
}

// Ledger blocks, as other crates, C and Rust call them. The work is done in `blockwriter` and `blockreader`.
#![tactic(auto)]

ghost use Rattle.std.specs.Prelude.{◌≡◌, ◌+◌, ◌*◌};
ghost use Rattle.blocks.specs.Blocks.{write, read};

pub use blockreader::{Unread, read_blocks};
pub use blockwriter::{Unwritten, write_blocks};
pub use codes::Told;
use codes::in_one;

// ---- as hosts call them; the crate `ledger_c` exports each to C and Rust

// `write_blocks`: code times 2^32 plus place.
pub fn reedtangle_write_blocks(log: &[u8], out: &mut [u8]) -> u64
    ensures { (result ≡ (write log.now out.old).code * 4294967296 + (write log.now out.old).place)
        × (out.new ≡ (write log.now out.old).bytes) }
{
    in_one(write_blocks(log, out))
}

// `read_blocks`: code times 2^32 plus place.
pub fn reedtangle_read_blocks(blocks: &[u8], out: &mut [u8]) -> u64
    ensures { (result ≡ (read blocks.now out.old).code * 4294967296 + (read blocks.now out.old).place)
        × (out.new ≡ (read blocks.now out.old).bytes) }
{
    in_one(read_blocks(blocks, out))
}

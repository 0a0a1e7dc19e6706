// Ledger blocks for C and Rust: what they link, each a call of the function of the same name in `ledger`. The archive is `libledger.a` (tools/build.sh).
#![tactic(auto)]

ghost use Rattle.std.specs.Prelude.{◌≡◌, ◌+◌, ◌*◌};
ghost use Rattle.blocks.specs.Blocks.{write, read};

// `write_blocks`: code times 2^32 plus place.
#[unsafe(no_mangle)]
pub extern "C" fn reedtangle_write_blocks(log: &[u8], out: &mut [u8]) -> u64
    ensures { (result ≡ (write log.now out.old).code * 4294967296 + (write log.now out.old).place)
        × (out.new ≡ (write log.now out.old).bytes) }
{
    ledger::reedtangle_write_blocks(log, out)
}

// `read_blocks`: code times 2^32 plus place.
#[unsafe(no_mangle)]
pub extern "C" fn reedtangle_read_blocks(blocks: &[u8], out: &mut [u8]) -> u64
    ensures { (result ≡ (read blocks.now out.old).code * 4294967296 + (read blocks.now out.old).place)
        × (out.new ≡ (read blocks.now out.old).bytes) }
{
    ledger::reedtangle_read_blocks(blocks, out)
}

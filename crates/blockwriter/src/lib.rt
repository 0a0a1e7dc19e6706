// Ledger blocks: the writer of a log in blocks of 512 bytes.
#![tactic(auto)]

ghost use Rattle.std.specs.Prelude.{◌≡◌, ◌+◌, ◌*◌, ◌≤◌, length};
ghost use Rattle.history.specs.Formats.{bytes_of};
ghost use Rattle.blocks.specs.Blocks.{block, block_count, first_blocks, write};
ghost use Rattle.sums.specs.Sums.{with_run};
ghost use Rattle.blockwriter.specs.Answers.{code_of, numbered};

use codes::Told;

// Why a log is not written.
#[derive(Clone, Copy, PartialEq, Eq)]
pub enum Unwritten {
    Length,
    Short,
}

// Document 02's codes. No place goes with them.
impl Told for Unwritten {
    ghost number = { code_of };

    ghost place_of = { λ _. 0 };

    fn code(self) -> u32 {
        match self {
            Unwritten::Length => 11,
            Unwritten::Short => 24,
        }
    }

    fn place(self) -> usize {
        0
    }
}

// Four bytes of a number, low byte first, from a place on.
// `arbiter` has one too. It is one line: there its contract is said with take and drop, here with with_run.
fn put_number(bytes: &mut [u8], at: usize, n: u32)
    requires { at + 4 ≤ length bytes.old }
    ensures { bytes.new ≡ with_run bytes.old at (bytes_of 4 n) }
{
    bytes[at..at + 4].copy_from_slice(&n.to_le_bytes());
}

// The block of a number, with a run of records. The count's upper half is the two zero bytes.
fn put_block(number: u32, run: &[u8], bytes: &mut [u8])
    requires { (length run.now ≤ 496) × (length bytes.old ≡ 512) }
    ensures { bytes.new ≡ block number run.now }
{
    let n = run.len();
    put_number(bytes, 0, number);
    put_number(bytes, 4, (n / 8) as u32);
    sums::put_run(run, bytes, 8);
    bytes[8 + n..504].fill(0);
    let s = sums::add_up(&bytes[..504]);
    put_number(bytes, 504, s.first);
    put_number(bytes, 508, s.second);
}

// The blocks of a log, one for each 496 bytes of it.
fn put_blocks(log: &[u8], out: &mut [u8])
    requires { (length log.now ≤ 32768) × (block_count log.now * 512 ≤ length out.old) }
    ensures { out.new ≡ with_run out.old 0 (first_blocks (block_count log.now) log.now) }
{
    // Tried zipped with `chunks_exact_mut(512)`: the turn of the loop stayed open, and that k fits the cast.
    for (k, run) in log.chunks(496).enumerate() {
        let to = k * 512;
        put_block(k as u32, run, &mut out[to..to + 512]);
    }
}

// The log in blocks, in the lent bytes; how many bytes they are. On a refusal they stay.
pub fn write_blocks(log: &[u8], out: &mut [u8]) -> Result<usize, Unwritten>
    ensures { numbered result out.new ≡ write log.now out.old }
{
    let size = log.len();
    if size % 8 != 0 || 32768 < size {
        return Err(Unwritten::Length);
    }
    let n = size.div_ceil(496);
    if out.len() < n * 512 {
        return Err(Unwritten::Short);
    }
    put_blocks(log, out);
    Ok(n * 512)
}

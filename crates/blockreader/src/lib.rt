// Ledger blocks: the reader of a run of blocks of 512 bytes.
#![tactic(auto)]

ghost use Rattle.std.specs.Prelude.{◌≡◌, not, ◌*◌, ◌%◌, ◌≤◌, ◌<◌, eqb, length, drop};
ghost use Rattle.std.specs.List.{list_any};
ghost use Rattle.blocks.specs.Blocks.{count_wrong, fault_in, lowest_fault, first_records, read};
ghost use Rattle.sums.specs.Sums.{with_run};
ghost use Rattle.blockreader.specs.Answers.{code_of, block_of, answered, fault_of, Unfaulted};

use codes::Told;
use sums::Sums;

// Why blocks are not read; of a fault, the block that has it.
#[derive(Clone, Copy, PartialEq, Eq)]
pub enum Unread {
    Length,
    Sums(usize),
    Form(usize),
    Short,
}

// Document 02's codes.
impl Told for Unread {
    ghost number = { code_of };

    ghost place_of = { block_of };

    fn code(self) -> u32 {
        match self {
            Unread::Length => 21,
            Unread::Sums(_) => 22,
            Unread::Form(_) => 23,
            Unread::Short => 24,
        }
    }

    fn place(self) -> usize {
        match self {
            Unread::Sums(k) | Unread::Form(k) => k,
            Unread::Length | Unread::Short => 0,
        }
    }
}

// Is a byte from a place on not zero? It is asked of words, as byte by byte a block with few records takes twice the time.
fn used(front: &[u8], from: usize) -> bool
    requires { (length front.now ≡ 504) × (from % 4 ≡ 0) }
    ensures { result ≡ list_any (λ x. not (eqb x 0)) (drop from front.now) }
{
    for i in (from..504).step_by(4) {
        if sums::word_at(front, i) != 0 {
            return true;
        }
    }
    false
}

// May the block at place k of n not have this count?
#[tactic(auto, using(crate::proofs::FaultLaws::count_empty))]
fn miscounted(n: usize, k: usize, count: usize) -> bool
    requires { k < n }
    ensures { result ≡ count_wrong n k count }
{
    if k + 1 < n {
        return count != 62;
    }
    if count == 0 {
        return true;
    }
    if k == 66 {
        return 4 < count;
    }
    62 < count
}

// The fault of the block at place k of n. The count of blocks stands beside them here and below, as the definitions of the contracts (`fault_in`, `lowest_fault`, `first_records`) go by it.
fn fault_at(n: usize, k: usize, bytes: &[u8]) -> Result<(), Unread>
    requires { (length bytes.now ≡ 512) × (k < n) × (n ≤ 67) }
    ensures { fault_of result ≡ fault_in n k bytes.now }
{
    let front = &bytes[..504];
    let stored = Sums {
        first: sums::word_at(bytes, 504),
        second: sums::word_at(bytes, 508),
    };
    if stored != sums::add_up(front) {
        return Err(Unread::Sums(k));
    }
    if sums::word_at(bytes, 0) as usize != k {
        return Err(Unread::Form(k));
    }
    // the two zero bytes are the upper half of this count
    let count = sums::word_at(bytes, 4) as usize;
    if miscounted(n, k, count) {
        return Err(Unread::Form(k));
    }
    if used(front, 8 + 8 * count) {
        return Err(Unread::Form(k));
    }
    Ok(())
}

// The fault of the lowest faulty block of n.
fn lowest(n: usize, blocks: &[u8]) -> Result<(), Unread>
    requires { (length blocks.now ≡ 512 * n) × (n ≤ 67) }
    ensures { fault_of result ≡ lowest_fault n blocks.now n }
{
    for (k, block) in blocks.chunks_exact(512).enumerate() {
        fault_at(n, k, block)?;
    }
    Ok(())
}

// How many bytes the log in n blocks without fault has.
fn size_in(n: usize, blocks: &[u8]) -> usize
    requires { Unfaulted n blocks.now }
    ensures { result ≡ length (first_records n blocks.now) }
{
    match n.checked_sub(1) {
        Some(last) => last * 496 + blocks[last * 512 + 4] as usize * 8,
        None => 0,
    }
}

// That log, in lent bytes with room for it.
fn copy_records(n: usize, blocks: &[u8], out: &mut [u8])
    requires { Unfaulted n blocks.now × (length (first_records n blocks.now) ≤ length out.old) }
    ensures { out.new ≡ with_run out.old 0 (first_records n blocks.now) }
{
    for (k, block) in blocks.chunks_exact(512).enumerate() {
        let size = block[4] as usize * 8;
        sums::put_run(&block[8..8 + size], out, k * 496);
    }
}

// The log in a run of blocks, in the lent bytes; how many bytes it has. On a refusal they stay.
pub fn read_blocks(blocks: &[u8], out: &mut [u8]) -> Result<usize, Unread>
    ensures { answered result out.new ≡ read blocks.now out.old }
{
    let size = blocks.len();
    if size % 512 != 0 || 34304 < size {
        return Err(Unread::Length);
    }
    let n = size / 512;
    lowest(n, blocks)?;
    let many = size_in(n, blocks);
    if out.len() < many {
        return Err(Unread::Short);
    }
    copy_records(n, blocks, out);
    Ok(many)
}

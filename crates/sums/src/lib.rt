// Words of four bytes in a run of bytes, low byte first, the two sums over them that end a block, and a run of bytes put at a place.
#![tactic(auto)]

ghost use Rattle.std.specs.Prelude.{◌≡◌, cond, ◌+◌, leb, length};
ghost use Rattle.sums.specs.Sums.{WordAt, AddsUp, with_run};

// The word that stands at a place, low byte first; 0 where fewer than four bytes stand there.
// No Option: WordAt says it so, and every caller asks where four bytes stand.
pub fn word_at(bytes: &[u8], at: usize) -> u32
    ensures { WordAt bytes.now at result }
{
    if bytes.len() < at {
        return 0;
    }
    match bytes[at..].first_chunk::<4>() {
        Some(word) => u32::from_le_bytes(*word),
        None => 0,
    }
}

#[derive(Clone, Copy, PartialEq, Eq)]
pub struct Sums {
    pub first: u32,
    pub second: u32,
}

// The two sums over the words of a run of bytes. What is left over at the end, fewer than four bytes, is not added.
pub fn add_up(front: &[u8]) -> Sums
    ensures { AddsUp front.now result.first result.second }
{
    let mut first: u32 = 0;
    let mut second: u32 = 0;
    let (words, _) = front.as_chunks::<4>();
    for word in words {
        first = first.wrapping_add(u32::from_le_bytes(*word));
        second = second.wrapping_add(first);
    }
    Sums { first, second }
}

// A run of bytes at a place, where it has room there; where it has not, all stays. The records of a block are copied so. By hand and byte by byte: `copy_from_slice` calls `memmove`, which an
// archive for C would then need from outside.
pub fn put_run(run: &[u8], bytes: &mut [u8], at: usize)
    ensures { bytes.new ≡ cond (leb (at + length run.now) (length bytes.old)) (with_run bytes.old at run.now) bytes.old }
{
    if bytes.len() < at || bytes.len() - at < run.len() {
        return;
    }
    for i in 0..run.len() {
        bytes[at + i] = run[i];
    }
}

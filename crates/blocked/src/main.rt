// Ledger blocks told again: what the writer and the reader answer and leave, compared with what the rules say.
//
// What is expected is worked out here byte by byte and block by block, in another way than the code that is tried: each sum from the words' places, the second with the
// word at place i taken 126 - i times; a count by how many records there are in all; the faults from the last block to the first. No code is shared with the ledger. What is
// proved here is that the program is safe and ends, and nothing of its answers.
//
// Logs of eleven sizes come from a generator. Each is written into room that is enough, too much or too little, and its blocks are read back so. Then its blocks are damaged, in
// the first block, in one in the middle and in the last, with the sums as they were and with the sums mended. A line for each size has how many calls there were, how many
// got each code, and how many differed in code, place or any byte lent.
#![tactic(auto)]

use codes::Told;

// ---- bytes: past the end 0 is read, and nothing is written

// Memory is fixed here, so that a log, its blocks and what is lent each stand at the start of a space.
type Space = [u8; 36864];

fn first(space: &Space, size: usize) -> &[u8] {
    let all = &space[..];
    all.get(..size).unwrap_or(all)
}

fn first_mut(space: &mut Space, size: usize) -> &mut [u8] {
    let some = size.min(space.len());
    &mut space[..some]
}

fn at(bytes: &[u8], i: usize) -> u8 {
    bytes.get(i).copied().unwrap_or(0)
}

fn put(bytes: &mut [u8], i: usize, x: u8) {
    if let Some(byte) = bytes.get_mut(i) {
        *byte = x;
    }
}

// A byte of a number of four, counted from the lowest.
fn digit(x: u32, place: usize) -> u8 {
    x.to_le_bytes()[place % 4]
}

// A number of four bytes.
fn number(bytes: &[u8], i: usize) -> u32 {
    u32::from_le_bytes([
        at(bytes, i),
        at(bytes, i.wrapping_add(1)),
        at(bytes, i.wrapping_add(2)),
        at(bytes, i.wrapping_add(3)),
    ])
}

// Is a byte from one place to before another not zero?
fn used(bytes: &[u8], from: usize, to: usize) -> bool {
    bytes.iter().take(to).skip(from).any(|byte| *byte != 0)
}

// The next number of the generator.
// Its own, so that no code is shared.
fn shifted(x: u64) -> u64 {
    let y = x ^ (x << 13);
    let z = y ^ (y >> 7);
    z ^ (z << 17)
}

// Bytes from a seed.
fn fill(bytes: &mut [u8], seed: u64) {
    let mut x = seed;
    for byte in bytes.iter_mut() {
        x = shifted(x);
        *byte = (x / 16777216 % 256) as u8;
    }
}

// ---- the rules

// Code and place as the rules number them: with the ledger's own enums the numbers would not be tried.
#[derive(Clone, Copy, PartialEq, Eq)]
struct Answer {
    code: u32,
    place: usize,
}

fn refused(code: u32) -> Answer {
    Answer { code, place: 0 }
}

// The two sums of the block whose bytes start at a place.
fn sums(bytes: &[u8], from: usize) -> (u32, u32) {
    let mut first: u64 = 0;
    let mut second: u64 = 0;
    for i in 0..126 {
        let word = u64::from(number(bytes, from.wrapping_add(i * 4)));
        first = first.wrapping_add(word);
        second = second.wrapping_add(word.wrapping_mul(126 - i as u64));
    }
    ((first % 4294967296) as u32, (second % 4294967296) as u32)
}

// How many blocks a log of so many bytes has, and how many bytes they are.
fn blocks_for(size: usize) -> usize {
    if size % 496 == 0 {
        size / 496
    } else {
        size / 496 + 1
    }
}

fn room_for(size: usize) -> usize {
    blocks_for(size).wrapping_mul(512)
}

// How many records of it stand in block k.
fn count_for(size: usize, k: usize) -> u32 {
    (size / 8).saturating_sub(k.wrapping_mul(62)).min(62) as u32
}

// The byte at a place of the blocks of a log, where those before it are drawn.
fn drawn(log: &[u8], blocks: &[u8], i: usize) -> u8 {
    let k = i / 512;
    let place = i % 512;
    match place {
        0..=3 => digit((k % 4294967296) as u32, place),
        4..=7 => digit(count_for(log.len(), k), place),
        8..=503 => at(log, k.wrapping_mul(496).wrapping_add(place - 8)),
        504..=507 => digit(sums(blocks, i - place).0, place),
        _ => digit(sums(blocks, i - place).1, place),
    }
}

// The blocks of a log; how many bytes they are.
fn draw(log: &[u8], blocks: &mut [u8]) -> usize {
    let end = room_for(log.len());
    for i in 0..end {
        let x = drawn(log, blocks, i);
        put(blocks, i, x);
    }
    end
}

// The code of the fault of block k. Its count is right where the log has no more than 4,096 records with it.
fn fault(blocks: &[u8], k: usize) -> Option<u32> {
    let from = k % 128 * 512;
    if sums(blocks, from) != (number(blocks, from + 504), number(blocks, from + 508)) {
        return Some(22);
    }
    let count = number(blocks, from + 4) as usize % 65536;
    if number(blocks, from) as usize != k
        || count == 0
        || 62 < count
        || 4096 < k % 128 * 62 + count
        || count < 62 && k.wrapping_add(1) < blocks.len() / 512
        || used(blocks, from + 6, from + 8)
        || used(blocks, from + 8 + count * 8, from + 504)
    {
        return Some(23);
    }
    None
}

// The fault of the lowest faulty block, with its place. The last block is looked at first.
fn first_fault(blocks: &[u8]) -> Option<Answer> {
    let mut found = None;
    for k in (0..blocks.len() / 512).rev() {
        if let Some(code) = fault(blocks, k) {
            found = Some(Answer { code, place: k });
        }
    }
    found
}

// The bytes of the log in blocks without fault, which go to the other bytes where there is room.
fn unpack(blocks: &[u8], log: &mut [u8]) -> Answer {
    let mut size: usize = 0;
    if let Some(last) = (blocks.len() / 512).checked_sub(1) {
        let count = at(blocks, last.wrapping_mul(512).wrapping_add(4)) as usize;
        size = last.wrapping_mul(496).wrapping_add(count * 8);
    }
    if log.len() < size {
        return refused(24);
    }
    for i in 0..size {
        let x = at(
            blocks,
            (i / 496).wrapping_mul(512).wrapping_add(i % 496 + 8),
        );
        put(log, i, x);
    }
    Answer {
        code: 0,
        place: size,
    }
}

// What the writer should answer, with what it should leave.
fn expect_write(log: &[u8], out: &mut [u8]) -> Answer {
    let size = log.len();
    if size % 8 != 0 || 32768 < size {
        return refused(11);
    }
    if out.len() < room_for(size) {
        return refused(24);
    }
    Answer {
        code: 0,
        place: draw(log, out),
    }
}

// What the reader should answer, with what it should leave.
fn expect_read(blocks: &[u8], out: &mut [u8]) -> Answer {
    let size = blocks.len();
    if size % 512 != 0 || 34304 < size {
        return refused(21);
    }
    match first_fault(blocks) {
        Some(found) => found,
        None => unpack(blocks, out),
    }
}

// ---- one call, to both

#[derive(Drop)]
struct Counts {
    calls: u64,
    with_code: [u64; 32],
    differ: u64,
}

impl Counts {
    fn new() -> Counts {
        Counts {
            calls: 0,
            with_code: [0; 32],
            differ: 0,
        }
    }

    // One more call: what was expected, what was answered, and whether they left the same bytes.
    fn tally(&mut self, mine: Answer, theirs: Answer, same: bool) {
        self.calls = self.calls.wrapping_add(1);
        if let Some(calls) = self.with_code.get_mut(mine.code as usize) {
            *calls = calls.wrapping_add(1);
        }
        if mine != theirs || !same {
            self.differ = self.differ.wrapping_add(1);
        }
    }

    fn of(&self, code: usize) -> u64 {
        self.with_code.get(code).copied().unwrap_or(0)
    }
}

fn told(answer: impl Told) -> Answer {
    Answer {
        code: answer.code(),
        place: answer.place(),
    }
}

// The lent bytes are the same for both, and so are some bytes past them.
fn try_both<M: FnOnce(&mut [u8]) -> Answer, T: FnOnce(&mut [u8]) -> Answer>(
    seed: u64,
    room: usize,
    mine_of: M,
    theirs_of: T,
    counts: &mut Counts,
)
    requires mine { M.IsAlwaysCallable mine_of }
    requires theirs { T.IsAlwaysCallable theirs_of }
{
    let span = room.wrapping_add(64);
    let mut mine: Space = [0; 36864];
    fill(first_mut(&mut mine, span), seed);
    let mut theirs = mine;
    let expected = mine_of(first_mut(&mut mine, room));
    let answered = theirs_of(first_mut(&mut theirs, room));
    let same = first(&mine, span) == first(&theirs, span);
    counts.tally(expected, answered, same);
}

fn try_write(log: &[u8], room: usize, counts: &mut Counts) {
    try_both(
        5,
        room,
        |out| expect_write(log, out),
        |out| told(ledger::write_blocks(log, out)),
        counts,
    );
}

fn try_read(blocks: &[u8], room: usize, counts: &mut Counts) {
    try_both(
        9,
        room,
        |out| expect_read(blocks, out),
        |out| told(ledger::read_blocks(blocks, out)),
        counts,
    );
}

// ---- damage

// A number of four bytes is put at a place, byte by byte: what would stand past the end is not written (`put`).
fn put_number(bytes: &mut [u8], i: usize, x: u32) {
    for j in 0..4 {
        put(bytes, i.wrapping_add(j), digit(x, j));
    }
}

// The sums of the block that starts at a place are put right.
fn mend(blocks: &mut [u8], from: usize) {
    let (first, second) = sums(blocks, from);
    put_number(blocks, from.wrapping_add(504), first);
    put_number(blocks, from.wrapping_add(508), second);
}

// One byte of a block becomes another, the blocks are read with the sums as they were and mended, and the byte is put back.
fn try_byte(blocks: &mut [u8], i: usize, x: u8, counts: &mut Counts) {
    let from = i / 512 * 512;
    let before = at(blocks, i);
    put(blocks, i, x);
    try_read(blocks, blocks.len(), counts);
    mend(blocks, from);
    try_read(blocks, blocks.len(), counts);
    put(blocks, i, before);
    mend(blocks, from);
}

// Block k damaged: every so many of its bytes, one more than it was, and then its count, 0 to 67.
fn try_block(blocks: &mut [u8], k: usize, step: usize, counts: &mut Counts) {
    let from = k.wrapping_mul(512);
    for i in (0..512).step_by(step % 512 + 1) {
        let place = from.wrapping_add(i);
        let x = at(blocks, place).wrapping_add(1);
        try_byte(blocks, place, x, counts);
    }
    for n in 0..68 {
        try_byte(blocks, from.wrapping_add(4), n, counts);
    }
}

// ---- one log

fn try_writes(space: &Space, size: usize, counts: &mut Counts) {
    let log = first(space, size);
    let all = room_for(size);
    try_write(log, all, counts);
    try_write(log, all.wrapping_add(1), counts);
    try_write(log, all.wrapping_add(777), counts);
    try_write(log, all / 2, counts);
    try_write(log, 0, counts);
    try_write(
        first(space, size.wrapping_add(1)),
        all.wrapping_add(777),
        counts,
    );
    try_write(first(space, size.wrapping_add(4)), 0, counts);
    if 0 < all {
        try_write(log, all - 1, counts);
        try_write(first(space, size.wrapping_sub(1)), all, counts);
    }
}

fn try_reads(space: &Space, size: usize, room: usize, counts: &mut Counts) {
    let blocks = first(space, size);
    try_read(blocks, room, counts);
    try_read(blocks, room.wrapping_add(100), counts);
    try_read(blocks, room / 2, counts);
    try_read(blocks, 0, counts);
    try_read(first(space, size.wrapping_add(1)), room, counts);
    try_read(
        first(space, size.wrapping_add(512)),
        room.wrapping_add(512),
        counts,
    );
    if 0 < size {
        try_read(blocks, room.wrapping_sub(1), counts);
        try_read(first(space, size - 1), room, counts);
        try_read(first(space, size.wrapping_sub(512)), room, counts);
    }
}

// A log of so many records, with every byte of a small one's blocks damaged and some of a large one's.
fn try_log(n: u64, counts: &mut Counts) {
    let size = (n % 4608 * 8) as usize;
    let mut log: Space = [0; 36864];
    let mut blocks: Space = [0; 36864];
    fill(&mut log, n.wrapping_add(1));
    fill(&mut blocks, n.wrapping_add(2));
    try_writes(&log, size, counts);
    let all = draw(first(&log, size), &mut blocks);
    try_reads(&blocks, all, size, counts);
    let count = blocks_for(size);
    if let Some(last) = count.checked_sub(1) {
        let step = if 3 < count { 40 } else { 0 };
        let some = first_mut(&mut blocks, all);
        try_block(some, 0, step, counts);
        try_block(some, count / 2, step, counts);
        try_block(some, last, step, counts);
    }
}

// ---- what is written

// A log of n records: its line.
fn report(rt: &impl Print, n: u64) {
    let mut counts = Counts::new();
    try_log(n, &mut counts);
    host::print_decimal(rt, n);
    host::write_all(rt, b" records: ");
    host::print_decimal(rt, counts.calls);
    host::write_all(rt, b" calls; codes 0, 11, 21, 22, 23, 24:");
    for code in [0, 11, 21, 22, 23, 24] {
        host::write_all(rt, b" ");
        host::print_decimal(rt, counts.of(code));
    }
    host::write_all(rt, b"; differ: ");
    host::print_decimal(rt, counts.differ);
    host::write_all(rt, b"\n");
}

fn main(rt: HostRuntime) {
    for n in [0, 1, 4, 61, 62, 63, 124, 125, 4092, 4093, 4096, 4097] {
        report(&rt, n);
    }
}

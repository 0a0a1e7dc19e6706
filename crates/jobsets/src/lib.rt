// Sets of jobs, 512 marks in eight words, and tables of such sets: the lowest job of a set, and the jobs that precede a step.
#![tactic(auto)]

ghost use Rattle.std.specs.Prelude.{◌<◌};
ghost use Rattle.tallies.specs.Marks.{Joined};
ghost use Rattle.jobsets.specs.Gains.{LowestOf, Table, Gains};

// The lowest mark, where there is one.
pub fn lowest_mark(words: &[u64; 8]) -> Option<usize>
    ensures { LowestOf words.now result }
{
    for (w, word) in words.iter().enumerate() {
        if *word != 0 {
            return Some(w * 64 + word.trailing_zeros() as usize);
        }
    }
    None
}

// A row of `words` gains what a row of `others` has.
fn join(words: &mut [u64; 4096], row: usize, others: &[u64; 6160], other: usize)
    requires { (row < 512) × (other < 770) }
    ensures { Table 4096 words.new × Joined row other others.now words.old words.new }
{
    let all = &mut words[..];
    let theirs = &others[..];
    let to = row * 8;
    let from = other * 8;
    // By place, as `Joining` says it. With `iter_mut` and `zip` over the two rows of eight the goals of this loop would have to be proved anew.
    for w in 0..8 {
        all[to + w] |= theirs[from + w];
    }
}

// A job gains what the rows have that a step at this row looks at. Nothing changes where there is no such job, and where there is no such row. A row is a number, since the table that
// it indexes has a place for each, and `looked` of tallies says it so. `stands_low` of checks goes over the same rows, and compares where this joins.
pub fn join_before(preds: &mut [u64; 4096], job: usize, seen: &[u64; 6160], row: usize)
    ensures { Gains job row seen.now preds.old preds.new }
{
    if 511 < job {
        return;
    }
    if row < 768 {
        let cell = row % 256;
        if 256 <= row {
            join(preds, job, seen, cell);
        }
        join(preds, job, seen, cell + 256);
        if row < 512 {
            join(preds, job, seen, cell + 512);
        }
        return;
    }
    if row != 768 {
        return;
    }
    join(preds, job, seen, 769);
}

// The lines that the program `locked` prints: for each whole record of a buffer the place, the code and the job by locks, in decimal, as the trial program's lines are, and at the end
// how many were put off.
#![tactic(auto)]

ghost use Rattle.std.specs.Prelude.{leb, eqb, length};
ghost use Rattle.arbiter.specs.Replay.{held_of};
ghost use Rattle.locks.specs.LocksHeld.{lock_answer, lock_next};
ghost use Rattle.lines.specs.Writes.{Starts};
ghost use Rattle.locklines.specs.LockLines.{off_bytes};
ghost use Rattle.locklines.specs.LockWrites.{LockWrites};

use arbiter::State;
use lines::{Profile, Written};
use locking::LockAnswer;
use slots::Replied;

// The profile of locks. It counts what is put off.
struct ByLocks;

impl Profile for ByLocks {
    type Answer = LockAnswer;

    ghost answer_by = { lock_answer };

    ghost next_by = { lock_next };

    ghost counted = { λ reply. eqb reply.code 10 };

    fn ask(state: &mut State, request: [u8; 8]) -> LockAnswer {
        locking::lock_in_place(
            &mut state.next,
            &mut state.free,
            &mut state.numbers,
            &mut state.leads,
            &mut state.sets,
            &mut state.ports,
            request,
        )
    }

    fn counts(answer: LockAnswer) -> bool {
        answer.code() == 10
    }
}

// The lines for the whole records of the input, from a place and a state: the bytes written, and how many were put off. None where there is no room, and then nothing moved.
pub fn lock_lines(place: u64, state: &mut State, input: &[u8], out: &mut [u8]) -> Option<Written>
    ensures { LockWrites place (held_of state.old) input.now out.old result (held_of state.new) out.new }
{
    lines::lines_by::<ByLocks>(place, state, input, out)
}

// The last line, where there is room for 29 bytes.
#[tactic(auto, unfolding(crate::specs::LockLines::off_bytes))]
pub fn off_line(n: u64, out: &mut [u8]) -> usize
    ensures { Starts (leb 29 (length out.old)) (off_bytes n) out.old out.new result }
{
    lines::word_line(b"put off ", n, out)
}

// The lines that the trial program prints: for each whole record of a buffer the place, the code and the job, in decimal. A run of requests is by any profile (`Profile`): the first profile's lines are
// here (`lines`), those by locks in the crate `locklines`.
#![tactic(auto)]

ghost use Rattle.std.specs.Prelude.{◌≡◌, false, Bool, ◌∷◌, [], ◌++◌, ◌+◌, ◌≤◌, ◌<◌, leb, length};
ghost use Rattle.text.specs.Decimal.{decimal};
ghost use Rattle.text.specs.Puts.{Puts};
ghost use Rattle.history.specs.Formats.{request_of};
ghost use Rattle.history.specs.Replies.{Request, Reply};
ghost use Rattle.held.specs.Held.{Held, answer_to, after};
ghost use Rattle.arbiter.specs.Replay.{held_of};
ghost use Rattle.lines.specs.Lines.{line, header_line, tail_line};
ghost use Rattle.lines.specs.Writes.{Starts, PutsAt, Writes};
ghost use Rattle.lines.specs.Runs.{WritesBy};

use arbiter::{Answer, Replied, State};

// ---- lines

// A number in decimal and the byte that ends it, where there is room for both: the place past them.
fn put_field(n: u64, end: u8, out: &mut [u8], at: usize) -> usize
    requires { at + length (decimal n) < length out.old }
    ensures puts { Puts at (decimal n ++ end ∷ []) out.old out.new result }
    ensures past { result ≡ at + length (decimal n) + 1 }
{
    let to = text::put_number(n, out, at);
    out[to] = end;
    to + 1
}

// The line of one reply at a place, where there are 44 bytes from there on: the place past it.
fn put_line(place: u64, code: u32, job: u32, out: &mut [u8], at: usize) -> usize
    requires { at + 44 ≤ length out.old }
    ensures puts { Puts at (line place (record { code = code; job = job })) out.old out.new result }
    ensures upper_bound { result ≤ at + 44 }
{
    let a = put_field(place, b' ', out, at);
    let b = put_field(code as u64, b' ', out, a);
    put_field(job as u64, b'\n', out, b)
}

// Where there is no room the place itself is answered, or 0, and no Option: PutsAt and Starts say it so, and a caller writes as many bytes as are told.
// Puts the line of one reply at a place, where there are 44 bytes from there on, and answers the place past it. Where there are fewer nothing is put, and the place itself is answered.
pub fn put_reply(place: u64, code: u32, job: u32, out: &mut [u8], at: usize) -> usize
    ensures puts_at { PutsAt (leb (at + 44) (length out.old)) at (line place (record { code = code; job = job })) out.old out.new result }
    ensures upper_bound { result ≤ at + 44 }
{
    if out.len() < 44 || out.len() - 44 < at {
        return at;
    }
    put_line(place, code, job, out, at)
}

// The header, 17 bytes, where there is room.
pub fn header(out: &mut [u8]) -> usize
    ensures { Starts (leb 17 (length out.old)) header_line out.old out.new result }
{
    text::put_text(b"request code job\n", out, 0)
}

// A word and a number, where there is room for the word and 21 bytes.
pub fn word_line(word: &[u8], n: u64, out: &mut [u8]) -> usize
    ensures { Starts (leb (length word.now + 21) (length out.old)) (word.now ++ (decimal n ++ 10 ∷ [])) out.old out.new result }
{
    if out.len() < word.len() + 21 {
        return 0;
    }
    let a = text::put_text(word, out, 0);
    put_field(n, b'\n', out, a)
}

// The last line, for n bytes that are no whole record, where there is room for 26 bytes, and nothing for none.
#[tactic(auto, unfolding(crate::specs::Lines::tail_line))]
pub fn tail(n: u64, out: &mut [u8]) -> usize
    ensures { Starts (leb 26 (length out.old)) (tail_line n) out.old out.new result }
{
    if n == 0 {
        return 0;
    }
    word_line(b"tail ", n, out)
}

// ---- runs of requests

// How a profile answers: what a request is answered and what state it leaves, and which of the answers a run counts.
pub trait Profile {
    type Answer: Replied;

    ghost answer_by: { Held → Request → Reply };

    ghost next_by: { Held → Request → Held };

    ghost counted: { Reply → Bool };

    // One request, in place.
    fn ask(state: &mut State, request: [u8; 8]) -> Self::Answer
        ensures answered { Self.Answer.reply result ≡ answer_by (held_of state.old) (request_of request) }
        ensures left { held_of state.new ≡ next_by (held_of state.old) (request_of request) };

    fn counts(answer: Self::Answer) -> bool
        ensures { result ≡ counted (Self.Answer.reply answer) };
}

// What a run comes to: the bytes written, and how many of the answers were counted.
#[derive(Clone, Copy, Debug, PartialEq, Eq)]
pub struct Written {
    pub bytes: usize,
    pub counted: u64,
}

// The first place that no line has.
const PLACES: u64 = 4611686018427387904;

// The lines for the whole records of the input, by a profile, from a place and a state. None where there is no room, and then nothing moved.
pub fn lines_by<P: Profile>(
    place: u64,
    state: &mut State,
    input: &[u8],
    out: &mut [u8],
) -> Option<Written>
    ensures { WritesBy P.answer_by P.next_by P.counted place (held_of state.old) input.now out.old result (held_of state.new) out.new }
{
    let (requests, _) = input.as_chunks::<8>();
    if PLACES <= place || out.len() / 44 < requests.len() {
        return None;
    }
    let mut at = 0;
    let mut counted = 0;
    for (i, request) in requests.iter().enumerate() {
        let answer = P::ask(state, *request);
        counted += u64::from(P::counts(answer));
        at = put_line(place + i as u64, answer.code(), answer.job().0, out, at);
    }
    Some(Written { bytes: at, counted })
}

// The first profile. It counts nothing.
struct First;

impl Profile for First {
    type Answer = Answer;

    ghost answer_by = { answer_to };

    ghost next_by = { after };

    ghost counted = { λ _. false };

    fn ask(state: &mut State, request: [u8; 8]) -> Answer {
        state.ask(request)
    }

    fn counts(_answer: Answer) -> bool {
        false
    }
}

// Its lines: the bytes written.
pub fn lines(place: u64, state: &mut State, input: &[u8], out: &mut [u8]) -> Option<usize>
    ensures { Writes place (held_of state.old) input.now out.old result (held_of state.new) out.new }
{
    let written = lines_by::<First>(place, state, input, out)?;
    Some(written.bytes)
}

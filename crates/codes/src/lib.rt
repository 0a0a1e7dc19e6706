// What an answer is told by: its code and its place, as documents 01 and 02 number them. A refusal of any kind has both; of what was granted the code is 0 and the place is the count that it
// comes with. Each enum of refusals says its numbers once, by `Told`, and the `Result` that holds it has them too.
#![tactic(auto)]

ghost use Rattle.std.specs.Prelude.{◌≡◌, ℕ, ◌+◌, ◌*◌, ◌%◌, ◌^◌};
ghost use Rattle.codes.specs.Codes.{code_in, place_in};

// What has a code and a place.
pub trait Told: Copy {
    ghost number: { Self → ℕ };

    ghost place_of: { Self → ℕ };

    fn code(self) -> u32
        ensures { result ≡ number self };

    fn place(self) -> usize
        ensures { result ≡ place_of self };
}

// Code 0 and the count, or the code and the place of the refusal.
impl<E: Told> Told for Result<usize, E> {
    ghost number = { code_in E.number };

    ghost place_of = { place_in E.place_of };

    fn code(self) -> u32 {
        match self {
            Ok(_) => 0,
            Err(refusal) => refusal.code(),
        }
    }

    fn place(self) -> usize {
        match self {
            Ok(count) => count,
            Err(refusal) => refusal.place(),
        }
    }
}

// Both in one number, as the calls for C answer: code times 2^32 plus place, modulo 2^64, which no code and place that they give comes to. A product and a sum, as the contract says it.
pub fn in_one<A: Told>(answer: A) -> u64
    ensures { result ≡ (A.number answer * 4294967296 + A.place_of answer) % 2 ^ 64 }
{
    ((answer.code() as u64) * 4294967296).wrapping_add(answer.place() as u64)
}

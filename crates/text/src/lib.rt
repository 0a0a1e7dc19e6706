// Text and numbers put into lent buffers. Each function answers the place past what it put; where there is no room nothing is written, and the place
// that it was given is answered, and no Option: Lays says it so, and a caller puts the next piece there whatever came of this one. Bytes and place stand side by side, as the
// callers' contracts (Puts, Starts, Stays) are said of both.
#![tactic(auto)]

ghost use Rattle.std.specs.Prelude.{◌≡◌, ◌≤◌, ◌<◌, length};
ghost use Rattle.text.specs.Decimal.{decimal};
ghost use Rattle.text.specs.Lays.{Lays};

// How many digits the number has.
fn places(n: u64) -> usize
    ensures { (result ≡ length (decimal n)) × (0 < result) × (result ≤ 20) }
{
    match n.checked_ilog10() {
        Some(power) => power as usize + 1,
        None => 1,
    }
}

// Puts a text at a place.
pub fn put_text(text: &[u8], out: &mut [u8], at: usize) -> usize
    ensures { Lays at text.now out.old out.new result }
{
    if out.len() < at || out.len() - at < text.len() {
        return at;
    }
    let end = at + text.len();
    out[at..end].copy_from_slice(text);
    end
}

// Puts a number in decimal at a place, the last digit first.
// By hand: `write!` promises nothing of its bytes, and leaves a part of what it has no room for, where Lays has nothing written.
pub fn put_number(n: u64, out: &mut [u8], at: usize) -> usize
    ensures { Lays at (decimal n) out.old out.new result }
{
    let count = places(n);
    if out.len() < at || out.len() - at < count {
        return at;
    }
    let end = at + count;
    let mut rest = n;
    // By place, as Spelled says it: tried with `iter_mut().rev()`, where the turn of the loop and the return stayed open.
    for i in (at..end).rev() {
        out[i] = b'0' + (rest % 10) as u8;
        rest /= 10;
    }
    end
}

// The second witness: the arbiter's replies, the checker's verdicts and the lister's orders, told again from the whole history.
//
// All that is granted is kept, as the records of a log, and each request is decided from these by the definitions, in plain loops over every record and every pair
// of records; the arbiter, the checker and the lister are asked the same, and the answers are compared. No code is shared with them, but the eight bytes of a
// request and of a reply. What is proved here is that the program is safe and ends, and nothing of its answers: they are a second reading of the same rules.
//
// What is asked comes from standard input, which is `crates/tried/stdin` once more (a copy, byte for byte: a program has an input of its own), and from a generator,
// in six shapes of streams. A stream is cut into windows; the log of each is given to the checker and the lister, whole and damaged, with right and wrong orders.
//
// Nor is code shared with `desk`: what both have, as a record and a conflict, would need contracts in a library, and a slip there would stand in both.
#![tactic(auto)]

mod counts;
mod judging;
mod kept;
mod record;
mod replies;
mod streams;
mod telling;

use counts::{Differ, LOGS, Replies, Row, Verdicts, sum_streams};
use kept::List;
use streams::{SEED, Shape, try_streams};
use telling::tell_all;

// A line that cannot be written is passed over: that is no failure of the program.
fn report(rt: &impl Print, h: &List) {
    let _ = println!(rt;
        "seed {SEED}; codes 0 to 9, and of 7 those through ended jobs; of orders and lists, codes 0 and 11 to 18"
    );
    for shape in Shape::ALL {
        let _ = println!(rt; "{}: {}", shape.name(), Replies(h, shape.row()));
    }
    let _ = println!(rt; "all streams: {}", Replies(h, Row::STREAMS));
    let _ = println!(rt; "tried histories: {}", Replies(h, Row::HISTORIES));
    let orders = Verdicts(h, Row::ORDERS, "verdicts");
    let _ = println!(rt; "tried orders: {orders}; {} logs", Row::ORDERS.at(h, LOGS));
    let lists = Verdicts(h, Row::LISTS, "answers");
    let _ = println!(rt; "tried lists: {lists}");
    let orders = Verdicts(h, Row::STREAM_ORDERS, "verdicts");
    let _ = println!(rt; "orders of the streams: {orders}");
    let lists = Verdicts(h, Row::STREAM_LISTS, "answers");
    let _ = println!(rt; "lists of the streams: {lists}");
    let _ = println!(rt; "recount: {}", Differ(h, Row::REST));
}

fn main(rt: HostRuntime) {
    let mut space = [0u8; 131072];
    let mut h = List::all(0);
    let count = host::read_full(&mut rt.stdin(), &mut space);
    tell_all(&mut h, &space[..count]);
    try_streams(&mut h);
    sum_streams(&mut h);
    report(&rt, &h);
}

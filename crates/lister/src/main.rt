// The lister: the lowest-first order of the jobs of a log in a file.
#![tactic(auto)]

ghost use Rattle.verdicts.specs.Verdicts.{list_order};

use listing::Listing;
use orders::Listed;

// The kept jobs, the lowest number first where there is a choice.
struct Order;

impl Listing for Order {
    const USAGE: &'static [u8] = b"usage: lister LOG\n\
    Lists the kept jobs of a log in an order that keeps every conflicting pair and puts each job before those opened after its end,\n\
    the lowest number first where there is a choice.\n\
    LOG: records of 8 bytes, at most 4096, and at most 512 opens. A record is the kind (1 open, 2 read, 3 write, 4 end, 5 abandon, 7 add),\n\
    a byte 0, the cell (2 bytes, 0 to 255, and 0 where no cell is meant) and the job (4 bytes; of an open, the number issued).\n\
    Numbers stand low byte first. A job is kept unless the log abandons it.\n\
    The answer is 'accepted N' and N job numbers, one a line, or 'refused CODE PLACE' and a line that says what is wrong.\n\
    Records count from 0.\n";

    const NO_ROOM: &'static [u8] = b" kept jobs, for which there is no room\n";

    ghost listed = { list_order };

    fn list(log: &[u8], order: &mut [u32]) -> Listed {
        orders::list_order(log, order)
    }
}

fn main(rt: HostRuntime) {
    listing::run::<Order>(&rt, &rt.stderr());
}

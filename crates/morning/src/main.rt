// The morning sheet: the jobs at rest of a log in a file, in the lister's order.
#![tactic(auto)]

ghost use Rattle.sheet.specs.Sheet.{list_sheet};

use listing::Listing;
use orders::Listed;

// The jobs at rest.
struct Sheet;

impl Listing for Sheet {
    const USAGE: &'static [u8] = b"usage: morning LOG\n\
    Lists the jobs of a log that are at rest: those that have ended, with no open job that leads to them by any chain of jobs that precede one another.\n\
    Whatever is granted after the log, the longer log has an order that starts with this list.\n\
    LOG: records of 8 bytes, at most 4096, and at most 512 opens. A record is the kind (1 open, 2 read, 3 write, 4 end, 5 abandon, 7 add),\n\
    a byte 0, the cell (2 bytes, 0 to 255, and 0 where no cell is meant) and the job (4 bytes; of an open, the number issued).\n\
    Numbers stand low byte first. A job is kept unless the log abandons it.\n\
    The answer is 'accepted N' and N job numbers, one a line, or 'refused CODE PLACE' and a line that says what is wrong.\n\
    Records count from 0.\n";

    const NO_ROOM: &'static [u8] = b" jobs at rest, for which there is no room\n";

    ghost listed = { list_sheet };

    fn list(log: &[u8], order: &mut [u32]) -> Listed {
        orders::list_sheet(log, order)
    }
}

fn main(rt: HostRuntime) {
    listing::run::<Sheet>(&rt, &rt.stderr());
}

// The checker of a proposed order, and the listers of one and of the morning sheet, as other crates, C and Rust call them. The work is done in `checks` and `lists`.
#![tactic(auto)]

ghost use Rattle.std.specs.Prelude.{◌≡◌, ◌+◌, ◌*◌};
ghost use Rattle.verdicts.specs.Verdicts.{check, list_order};
ghost use Rattle.sheet.specs.Sheet.{list_sheet};

// The answers, their refusals and what those are told by (`code`, `place`): who has this crate needs no other to read an answer.
pub use checks::{Checked, Refusal as CheckRefusal, check_order};
pub use codes::Told;
pub use lists::{Listed, Refusal as ListRefusal, list_order, list_sheet};
pub use logs::Fault;

// ---- as hosts call them; the crate `orders_c` exports each to C and Rust

// `check_order`: code times 2^32 plus place.
pub fn reedtangle_check_order(log: &[u8], order: &[u32]) -> u64
    ensures { result ≡ (check log.now order.now).code * 4294967296 + (check log.now order.now).place }
{
    codes::in_one(check_order(log, order))
}

// `list_order`: code times 2^32 plus place.
pub fn reedtangle_list_order(log: &[u8], out: &mut [u32]) -> u64
    ensures { (result ≡ (list_order log.now out.old).code * 4294967296 + (list_order log.now out.old).place)
        × (out.new ≡ (list_order log.now out.old).list) }
{
    codes::in_one(list_order(log, out))
}

// `list_sheet`: code times 2^32 plus place.
pub fn reedtangle_list_sheet(log: &[u8], out: &mut [u32]) -> u64
    ensures { (result ≡ (list_sheet log.now out.old).code * 4294967296 + (list_sheet log.now out.old).place)
        × (out.new ≡ (list_sheet log.now out.old).list) }
{
    codes::in_one(list_sheet(log, out))
}

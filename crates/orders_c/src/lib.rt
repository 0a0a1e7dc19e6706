// The checker and the listers for C and Rust: what they link, each a call of the function of the same name in `orders`. The archive is `liborders.a` (tools/build.sh).
#![tactic(auto)]

ghost use Rattle.std.specs.Prelude.{◌≡◌, ◌+◌, ◌*◌};
ghost use Rattle.verdicts.specs.Verdicts.{check, list_order};
ghost use Rattle.sheet.specs.Sheet.{list_sheet};

// `check_order`: code times 2^32 plus place.
#[unsafe(no_mangle)]
pub extern "C" fn reedtangle_check_order(log: &[u8], order: &[u32]) -> u64
    ensures { result ≡ (check log.now order.now).code * 4294967296 + (check log.now order.now).place }
{
    orders::reedtangle_check_order(log, order)
}

// `list_order`: code times 2^32 plus place.
#[unsafe(no_mangle)]
pub extern "C" fn reedtangle_list_order(log: &[u8], out: &mut [u32]) -> u64
    ensures { (result ≡ (list_order log.now out.old).code * 4294967296 + (list_order log.now out.old).place)
        × (out.new ≡ (list_order log.now out.old).list) }
{
    orders::reedtangle_list_order(log, out)
}

// `list_sheet`: code times 2^32 plus place.
#[unsafe(no_mangle)]
pub extern "C" fn reedtangle_list_sheet(log: &[u8], out: &mut [u32]) -> u64
    ensures { (result ≡ (list_sheet log.now out.old).code * 4294967296 + (list_sheet log.now out.old).place)
        × (out.new ≡ (list_sheet log.now out.old).list) }
{
    orders::reedtangle_list_sheet(log, out)
}

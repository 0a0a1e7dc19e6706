// The export of a log as a text, for C and Rust: what they link, a call of the function of the same name in `exporter`. The archive is `libexporter.a` (tools/build.sh).
#![tactic(auto)]

ghost use Rattle.std.specs.Prelude.{◌≡◌};
ghost use Rattle.notation.specs.Answers.{export};

// `export_log`: the code. `place` gets the place.
#[unsafe(no_mangle)]
pub extern "C" fn reedtangle_export(log: &[u8], out: &mut [u8], place: &mut u64) -> u32
    ensures { record { code = result; place = place.new; bytes = out.new } ≡ export log.now out.old }
{
    exporter::reedtangle_export(log, out, place)
}

// The import of a text as a log, for C and Rust: what they link, a call of the function of the same name in `importer`. The archive is `libimporter.a` (tools/build.sh).
#![tactic(auto)]

ghost use Rattle.std.specs.Prelude.{◌≡◌};
ghost use Rattle.notation.specs.Answers.{import};

// `import_log`: the code. `place` gets the place.
#[unsafe(no_mangle)]
pub extern "C" fn reedtangle_import(text: &[u8], out: &mut [u8], place: &mut u64) -> u32
    ensures { record { code = result; place = place.new; bytes = out.new } ≡ import text.now out.old }
{
    importer::reedtangle_import(text, out, place)
}

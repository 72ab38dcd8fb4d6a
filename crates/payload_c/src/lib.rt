// What C code calls: slices pass as a pointer and a length.
#![tactic(auto)]

ghost use Rattle.std.specs.Prelude.{◌≡◌};
ghost use Rattle.payload.specs.Export.{check_answer, rewrite_answer, rewritten};

use payload::export;

// 0 where the bytes are a sound cell, or the number of the refusal.
#[unsafe(no_mangle)]
pub extern "C" fn payload_check(bytes: &[u8]) -> u32
    ensures { result ≡ check_answer bytes.now }
{
    export::payload_check(bytes)
}

// Reads a cell and writes its contents again; 0, or the number of the refusal with nothing written.
#[unsafe(no_mangle)]
pub extern "C" fn payload_rewrite(bytes: &[u8], out: &mut [u8]) -> u32
    ensures answer { result ≡ rewrite_answer bytes.now out.old }
    ensures bytes { out.new ≡ rewritten bytes.now out.old }
{
    export::payload_rewrite(bytes, out)
}

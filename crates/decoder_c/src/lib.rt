//! Decoding for C, as the benchmark measures it: the archive libdecoder_c.a has this one function.
#![tactic(auto)]

/// Decodes a word in place, as `decoder::decoded` does: 1 where there is a word.
#[unsafe(no_mangle)]
pub extern "C" fn stanquivol_bench_decode(word: &mut [u16], t: usize, work: &mut [u16]) -> u8 {
    u8::from(decoder::decoded(word, t, work).is_ok())
}

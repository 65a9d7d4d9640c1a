//! setup RANDOM PUBLIC PRIVATE: makes a key pair of set 6 from the 402 bytes of the file RANDOM.
//!
//! Prints `done` and the number of windows tried, with the keys in the files PUBLIC and PRIVATE, or `refused` and the answer's
//! number, with both files as they were.
#![tactic(auto)]

use std::rt::Runtime;

fn make(rt: &impl Runtime, random: &[u8]) {
    let mut public = [0u8; 626];
    let mut private = [0u8; 859];
    let mut work = [0u16; 7200];
    let answer = calls::founding::setup(0x16, random, &mut public, &mut private, &mut work);
    match answer {
        // The private key comes first, so that no public key stands alone.
        Ok(count) => {
            if files::write(rt, 3, &private, true) && files::write(rt, 2, &public, false) {
                files::print_count(count);
            }
        }
        Err(_) => files::print_refused(answer),
    }
    private.fill(0);
}

// One byte of room more shows a file that is too long.
fn main(rt: HostRuntime) {
    if !files::called_with(&rt, 4, b"usage: setup RANDOM PUBLIC PRIVATE\n") {
        return;
    }
    let mut random = [0u8; 403];
    if let Some(n) = files::read(&rt, 1, &mut random) {
        make(&rt, &random[..n]);
    }
    random.fill(0);
}

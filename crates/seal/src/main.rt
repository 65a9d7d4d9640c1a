//! seal PUBLIC RANDOM MESSAGE CIPHER: seals the 30 bytes of the file MESSAGE under a public key of set 6, with random bytes of 1 to 16
//! blocks of 24.
//!
//! Prints `done` and the number of the block used, with the ciphertext in the file CIPHER, or `refused` and the answer's number,
//! with the file as it was.
#![tactic(auto)]

use std::rt::Runtime;

fn make(rt: &impl Runtime, key: &[u8], random: &[u8], message: &[u8]) {
    let mut cipher = [0u8; 57];
    let mut work = [0u16; 7200];
    let answer = calls::closing::seal(key, random, message, &mut cipher, &mut work);
    match answer {
        Ok(block) => {
            if files::write(rt, 4, &cipher, false) {
                files::print_count(block);
            }
        }
        Err(_) => files::print_refused(answer),
    }
}

fn with_random(rt: &impl Runtime, key: &[u8], random: &[u8]) {
    let mut message = [0u8; 31];
    if let Some(n) = files::read(rt, 3, &mut message) {
        make(rt, key, random, &message[..n]);
    }
    message.fill(0);
}

fn with_key(rt: &impl Runtime, key: &[u8]) {
    let mut random = [0u8; 385];
    if let Some(n) = files::read(rt, 2, &mut random) {
        with_random(rt, key, &random[..n]);
    }
    random.fill(0);
}

// One byte of room more shows a file that is too long.
fn main(rt: HostRuntime) {
    if !files::called_with(&rt, 5, b"usage: seal PUBLIC RANDOM MESSAGE CIPHER\n") {
        return;
    }
    let mut key = [0u8; 627];
    if let Some(n) = files::read(&rt, 1, &mut key) {
        with_key(&rt, &key[..n]);
    }
    key.fill(0);
}

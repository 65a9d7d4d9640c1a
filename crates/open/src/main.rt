//! open PRIVATE CIPHER MESSAGE: opens the 57 bytes of the file CIPHER with a private key of set 6.
//!
//! Prints `done`, with the message in the file MESSAGE, or `refused` and the answer's number, with the file as it was.
#![tactic(auto)]

use std::rt::Runtime;

fn make(rt: &impl Runtime, key: &[u8], cipher: &[u8]) {
    let mut message = [0u8; 30];
    let mut work = [0u16; 7200];
    let answer = calls::disclosing::open(key, cipher, &mut message, &mut work);
    match answer {
        Ok(()) => {
            if files::write(rt, 3, &message, true) {
                files::print_done();
            }
        }
        Err(_) => files::print_refused(answer),
    }
    message.fill(0);
}

fn with_key(rt: &impl Runtime, key: &[u8]) {
    let mut cipher = [0u8; 58];
    if let Some(n) = files::read(rt, 2, &mut cipher) {
        make(rt, key, &cipher[..n]);
    }
    cipher.fill(0);
}

// One byte of room more shows a file that is too long.
fn main(rt: HostRuntime) {
    if !files::called_with(&rt, 4, b"usage: open PRIVATE CIPHER MESSAGE\n") {
        return;
    }
    let mut key = [0u8; 860];
    if let Some(n) = files::read(&rt, 1, &mut key) {
        with_key(&rt, &key[..n]);
    }
    key.fill(0);
}

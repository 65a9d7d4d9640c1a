//! What the programs `setup`, `seal` and `open` share: files that their arguments name, and the one line that they print.
#![tactic(auto)]

ghost use Rattle.std.specs.Prelude.{◌≡◌, ◌≤◌, length, IfOk, IfSome};
ghost use Rattle.files.specs.Answers.{number_of_answer};

use messages::Words;
use scheme::Refusal;
use std::env::{Env, FillError};
use std::fs::{File, OpenFile, OpenOptions, Permissions};
use std::io::{Error, Read, Write};
use std::os::unix::fs::{OpenOptionsExt, PermissionsExt};
use std::rt::Files;

// The number of standard output.
const STDOUT: i32 = 1;

// The number of standard error.
const STDERR: i32 = 2;

// The system's numbers of the errors that a file's name comes to: there is none, it is too long, and it is not text.
const NO_ARGUMENT: i32 = 22;

const LONG_NAME: i32 = 36;

const NOT_TEXT: i32 = 84;

/// Whether argument i is there; it may be empty.
fn has_arg(rt: &impl Env, i: usize) -> bool {
    !matches!(rt.arg(i, &mut []), Err(FillError::NotPresent))
}

/// Whether the program was started with as many arguments as it takes; if not, standard error says how to call it.
pub fn called_with(rt: &impl Env, count: usize, usage: &[u8]) -> bool {
    if !has_arg(rt, count) && (count == 0 || has_arg(rt, count - 1)) {
        return true;
    }
    io::write_all(STDERR, usage);
    false
}

/// Argument i, at the start of the slice.
fn name<'a>(rt: &impl Env, i: usize, buf: &'a mut [u8]) -> std::io::Result<&'a str> {
    let n = match rt.arg(i, buf) {
        Ok(n) => n,
        Err(FillError::NotPresent) => return Err(Error::from_raw_os_error(NO_ARGUMENT)),
        Err(FillError::TooLong) => return Err(Error::from_raw_os_error(LONG_NAME)),
    };
    std::str::from_utf8(&buf[..n]).map_err(|_| Error::from_raw_os_error(NOT_TEXT))
}

/// Reads to the end of the file, or until the slice is full.
///
/// Kept as a loop over `read`: `read_exact` fails at a shorter file, and `read_to_end` and `take` want a `Vec`.
fn fill(file: &mut impl Read, buf: &mut [u8]) -> std::io::Result<usize>
    ensures { IfOk result (λ n. n ≤ length buf.old) }
{
    let mut done: usize = 0;
    while done < buf.len() {
        let n = file.read(&mut buf[done..])?;
        if n == 0 {
            break;
        }
        done += n;
    }
    Ok(done)
}

fn read_named(rt: &impl Files, path: &str, buf: &mut [u8]) -> std::io::Result<usize>
    ensures { IfOk result (λ n. n ≤ length buf.old) }
{
    let mut file = File::open(rt, path)?;
    fill(&mut file, buf)
}

/// The bytes of the file that argument i names, at the start of the slice, and how many they are, or none: then standard error says why.
/// A file that is longer than the slice fills it, so a slice that is one byte longer than the file should be shows a longer one.
pub fn read(rt: &(impl Env + Files + Eprint), i: usize, buf: &mut [u8]) -> Option<usize>
    ensures count { IfSome result (λ n. n ≤ length buf.old) }
{
    let mut space = io::buffer();
    let path = match name(rt, i, &mut space) {
        Ok(path) => path,
        Err(error) => {
            let _ = eprintln!(rt; "file name: {}", Words(error));
            return None;
        }
    };
    match read_named(rt, path, buf) {
        Ok(count) => Some(count),
        Err(error) => {
            let _ = eprintln!(rt; "{path}: {}", Words(error));
            None
        }
    }
}

// A file to write: made, or emptied where it is there. A new file for a secret is its owner's alone.
fn open_output<R: Files>(rt: &R, path: &str, secret: bool) -> std::io::Result<R::File> {
    let mut how = OpenOptions::new();
    how.write(true).create_new(true);
    if secret {
        how.mode(0o600);
    }
    match how.open(rt, path) {
        Ok(file) => {
            if secret {
                let _ = file.set_permissions(Permissions::from_mode(0o600));
            }
            Ok(file)
        }
        Err(_) => File::create(rt, path),
    }
}

fn write_named(rt: &impl Files, path: &str, bytes: &[u8], secret: bool) -> std::io::Result<()> {
    let mut file = open_output(rt, path, secret)?;
    file.write_all(bytes)
}

/// Writes the bytes to the file that argument i names and answers true, or says on standard error why not.
pub fn write(rt: &(impl Env + Files + Eprint), i: usize, bytes: &[u8], secret: bool) -> bool {
    let mut space = io::buffer();
    let path = match name(rt, i, &mut space) {
        Ok(path) => path,
        Err(error) => {
            let _ = eprintln!(rt; "file name: {}", Words(error));
            return false;
        }
    };
    match write_named(rt, path, bytes, secret) {
        Ok(()) => true,
        Err(error) => {
            let _ = eprintln!(rt; "{path}: {}", Words(error));
            false
        }
    }
}

/// The number of an answer, which stands after `refused`: 0 for one that is done.
pub fn number<T: Copy>(answer: Result<T, Refusal>) -> u64
    ensures { result ≡ number_of_answer answer }
{
    match answer {
        Ok(_) => 0,
        Err(refusal) => u64::from(u8::from(refusal)),
    }
}

/// Prints `refused` and the answer's number.
pub fn print_refused<T: Copy>(answer: Result<T, Refusal>) {
    io::write_all(STDOUT, b"refused ");
    io::print_decimal(STDOUT, number(answer));
    io::write_all(STDOUT, b"\n");
}

/// Prints `done`.
pub fn print_done() {
    io::write_all(STDOUT, b"done\n");
}

/// Prints `done` and the count.
pub fn print_count(count: usize) {
    io::write_all(STDOUT, b"done ");
    io::print_decimal(STDOUT, count as u64);
    io::write_all(STDOUT, b"\n");
}

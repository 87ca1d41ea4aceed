// The bytes of a named file, of the one that the first argument names, or of standard input where there is none.
ghost use Rattle.std.specs.Prelude.{◌≡◌, ◌≤◌, length, IfOk};
ghost use Rattle.console.specs.Input.{IsPrefixLen, ReadBy, unreadable_of};

use crate::output::fail;
use std::env::FillError;
use std::io::{self, Read};
use std::rt::{Env, Files};
use std::{fs, str};

// One byte more than the largest file that is looked at.
pub const ENOUGH: usize = 60007;

// One byte more than the longest name of a file.
const PATH: usize = 4096;

// What the system answers to a name that is too long.
const NAME_TOO_LONG: i32 = 36;

#[derive(Clone, Copy)]
pub enum Reading {
    Whole,
    // The caller's bytes are full: there may be more.
    Full,
    // What failed has been said on standard error.
    Unreadable,
}

// Not a Result: `ReadBy` and contracts' `receive_named_keeps_bytes_of_an_unreadable_file` say each reading's length.
#[derive(Clone, Copy)]
pub struct Received {
    pub length: usize,
    pub reading: Reading,
}

fn unreadable(rt: &(impl Eprint + AllocGlobal), what: &str, error: io::Error) -> Received
    ensures { result ≡ unreadable_of }
{
    fail(rt, what, error);
    Received {
        length: 0,
        reading: Reading::Unreadable,
    }
}

// How many bytes were put at the start: as many as there were before the end, a read of none, or all that were lent.
// std's `read_exact` gives no count, and no clause bounds `io::copy`'s by what was lent.
fn read(from: &mut impl Read, bytes: &mut [u8]) -> io::Result<usize>
    ensures { IfOk result (λ n. n ≤ length bytes.new) }
{
    let mut length = 0;
    while length < bytes.len() {
        match from.read(&mut bytes[length..])? {
            0 => break,
            more => length += more,
        }
    }
    Ok(length)
}

fn read_file(rt: &impl Files, path: &str, bytes: &mut [u8]) -> io::Result<usize>
    ensures { IfOk result (λ n. n ≤ length bytes.new) }
{
    read(&mut fs::open(rt, path)?, bytes)
}

// How a reading under that name ended, and how much of the bytes that were lent it put.
fn answer(
    rt: &(impl Eprint + AllocGlobal),
    name: &str,
    read: io::Result<usize>,
    bytes: &[u8],
) -> Received
    requires { IfOk read (λ n. n ≤ length bytes.now) }
    ensures prefix_len { IsPrefixLen result.length bytes.now }
    ensures read_by { ReadBy result.reading result.length (length bytes.now) }
{
    match read {
        Ok(length) => {
            let reading = if length < bytes.len() {
                Reading::Whole
            } else {
                Reading::Full
            };
            Received { length, reading }
        }
        Err(error) => unreadable(rt, name, error),
    }
}

// The bytes of the file of that name, which is text.
pub fn receive_named(
    rt: &(impl Files + Eprint + AllocGlobal),
    path: &[u8],
    bytes: &mut [u8],
) -> Received
    ensures prefix_len { IsPrefixLen result.length bytes.new }
    ensures read_by { ReadBy result.reading result.length (length bytes.new) }
{
    match str::from_utf8(path) {
        Ok(name) => {
            let read = read_file(rt, name, bytes);
            answer(rt, name, read, bytes)
        }
        Err(_) => unreadable(rt, "file name", io::ErrorKind::InvalidFilename.into()),
    }
}

fn argument(rt: &(impl Env + Files + Eprint + AllocGlobal), bytes: &mut [u8]) -> Received
    ensures prefix_len { IsPrefixLen result.length bytes.new }
    ensures read_by { ReadBy result.reading result.length (length bytes.new) }
{
    let mut path = [0u8; PATH];
    match rt.arg(1, &mut path) {
        Ok(length) => receive_named(rt, &path[..length], bytes),
        Err(_) => unreadable(rt, "argument", io::Error::from_raw_os_error(NAME_TOO_LONG)),
    }
}

pub fn receive(rt: &(impl Env + Input + Files + Eprint + AllocGlobal), bytes: &mut [u8]) -> Received
    ensures prefix_len { IsPrefixLen result.length bytes.new }
    ensures read_by { ReadBy result.reading result.length (length bytes.new) }
{
    match rt.arg(1, &mut []) {
        Err(FillError::NotPresent) => {
            let read = read(&mut rt.reader(), bytes);
            answer(rt, "standard input", read, bytes)
        }
        _ => argument(rt, bytes),
    }
}

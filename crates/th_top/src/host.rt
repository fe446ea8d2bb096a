// The words that the host gives.
use std::alloc::Global;
use std::io::ErrorKind;
use std::rt::Env;
use std::{env, io};
use th_base::Fail;
use th_words::UsageFault;

// The words behind the program's own name, as the host has them.
fn given_words(rt: &(impl Env + Alloc<A = Global>)) -> io::Result<Vec<String>> {
    Ok(env::args(rt)?.skip(1).collect(rt.alloc())?)
}

/// The words that the program was started with, without its own name. Where one of them isn't UTF-8
/// they are bad words.
pub fn host_words(rt: &(impl Env + Alloc<A = Global>)) -> Result<Vec<String>, Fail<UsageFault>> {
    match given_words(rt) {
        Ok(words) => Ok(words),
        Err(error) => match error.kind() {
            ErrorKind::OutOfMemory => Err(Fail::NoMemory),
            _ => Err(Fail::Refused(UsageFault::BadWords)),
        },
    }
}

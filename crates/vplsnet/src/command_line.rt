//! What a program takes from the command line, and what it tells on standard error.

use crate::outcome::Outcome;
use net_base::NoMemory;
use std::io::Write;
use std::{env, io};

/// The words of the command line, without the program's own name; or how a call ends without them.
pub fn words_of(rt: &HostRuntime) -> Result<Vec<String>, Outcome> {
    let args = match env::args(rt) {
        Ok(args) => args,
        Err(error) if error.kind() == io::ErrorKind::OutOfMemory => return Err(Outcome::NoMemory),
        // Words that are no UTF-8 are a usage.
        Err(_) => return Err(Outcome::Usage),
    };
    let mut words = Vec::new(rt.alloc());
    for word in args.skip(1) {
        if words.push(word).is_err() {
            return Err(Outcome::NoMemory);
        }
    }
    Ok(words)
}

/// Writes a line to standard error. Want of memory has no room for a line.
pub fn tell(rt: &HostRuntime, line: Result<Vec<u8>, NoMemory>) -> io::Result<()> {
    match line {
        Ok(mut line) => {
            line.push(b'\n')?;
            rt.stderr().write_all(line.as_slice())
        }
        Err(NoMemory) => Ok(()),
    }
}

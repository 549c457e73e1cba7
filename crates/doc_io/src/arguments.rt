use std::rt::Env;
use std::{env, io};

/// The words of the command line after the program's name. It takes memory for them.
pub fn command_line(rt: &(impl Env + AllocGlobal)) -> io::Result<Vec<String>> {
    let mut words = Vec::new(rt.alloc());
    for word in env::args(rt)?.skip(1) {
        words.push(word)?;
    }
    Ok(words)
}

//! What `doc_io` has for the system, tried on real files and outputs.

mod files;
mod outputs;

use files::try_files;
use outputs::try_narrow;
use std::io;
use std::rt::Files;

/// Tries the files of the folder in which the program runs, and an output that takes little, and
/// writes what came of each call.
pub fn try_adapters(rt: &(impl Print + Files + AllocGlobal)) -> io::Result<()> {
    try_files(rt)?;
    let mut out = io::writer(rt);
    try_narrow(false, &mut out)?;
    try_narrow(true, &mut out)
}

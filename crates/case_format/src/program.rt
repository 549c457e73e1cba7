use crate::kinds::Kinds;
use crate::session::Session;
use doc_io::FileInputs;
use std::io::{self, BufReader, BufWriter, Write};
use std::process::ExitCode;
use std::rt::Files;

/// Carries out the cases of standard input by these kinds, and writes to standard output what came
/// of each. Files that `load` names are those where the program runs. Fails where not every line
/// could be read.
pub fn carry_out<K: Kinds>(
    rt: &(impl Input + Print + Files + AllocGlobal),
    kinds: &K,
) -> io::Result<ExitCode> {
    let mut output = BufWriter::new(rt.alloc(), io::writer(rt))?;
    carry_out_whole(rt, kinds, &mut output)
}

/// Carries them out, and has all that is written leave.
fn carry_out_whole<K: Kinds, W: Write>(
    rt: &(impl Input + Files + AllocGlobal),
    kinds: &K,
    output: &mut W,
) -> io::Result<ExitCode> {
    let all_read = carry_out_to(rt, kinds, output)?;
    output.flush()?;
    if all_read {
        Ok(ExitCode::SUCCESS)
    } else {
        Ok(ExitCode::FAILURE)
    }
}

/// Carries out the cases of standard input, and says whether every line could be read.
fn carry_out_to<K: Kinds, W: Write>(
    rt: &(impl Input + Files + AllocGlobal),
    kinds: &K,
    output: &mut W,
) -> io::Result<bool> {
    let lines = BufReader::new(rt.alloc(), rt.reader())?;
    let mut session = Session::new(rt.alloc(), FileInputs::make(rt), kinds);
    session.carry_out(lines, output)
}

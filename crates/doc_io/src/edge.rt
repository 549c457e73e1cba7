ghost use Rattle.std.specs.Prelude.{◌≡◌, ◌<◌, ◌≤◌, [], false, length, IfOk, IsErr, Ok, OnErr, Some, MatchResult};
ghost use Rattle.doc_io.specs.Causes.{Reads, Rose, Selects, Writes, raised};
ghost use Rattle.doc_io.specs.Edge.{Opens, ReadsFile, SelectsFile, told_of};

use crate::{Failed, Inputs, Sink};
use std::io::{ErrorKind, Read, Write};
use std::marker::Model;
use std::rt::Files;
use std::{fs, io};

/// The files of the system, by their paths. Of their content nothing is told but what the readers
/// that `R` opens tell, and those of a real system tell nothing: trust begins here.
///
/// Each `Failed` raises one count by one: `missing` where the file isn't found, else `faults`. A
/// directory opens like a file, and reading it is a fault.
#[derive(Drop)]
pub struct FileInputs<'a, R: Files> {
    rt: &'a R,
    file: Option<R::File>,
    faults: u64,
    missing: u64,
}

impl<'a, R: Files> Model for FileInputs<'a, R> {
    ghost use Rattle.std.specs.Prelude.{is_some};
    ghost use Rattle.doc_io.specs.Edge.{FileState, told_by};

    ghost Value = { FileState };

    ghost view = { λ inputs. record {
      selected = is_some inputs.file;
      left = told_by R.File.remaining inputs.file;
      faults = inputs.faults;
      missing = inputs.missing;
    } };
}

impl<'a, R: Files> FileInputs<'a, R> {
    /// The system's files, none of them selected.
    pub fn make(rt: &'a R) -> FileInputs<'a, R>
        ensures { result ≡ record { selected = false; left = Some []; faults = 0; missing = 0 } }
    {
        FileInputs {
            rt,
            file: None,
            faults: 0,
            missing: 0,
        }
    }

    /// How often a call failed by a fault.
    pub fn faults(&self) -> u64
        ensures { result ≡ self.now.faults }
    {
        self.faults
    }

    /// How often a name was selected that the system didn't find.
    pub fn missing(&self) -> u64
        ensures { result ≡ self.now.missing }
    {
        self.missing
    }
}

impl<'a, R: Files> FileInputs<'a, R> {
    /// What the system answered to an opening: a file, which is selected, or an error, which is
    /// counted. Where the file isn't found it is missing, and every other error is a fault.
    fn opened(&mut self, answer: io::Result<R::File>) -> Result<(), Failed>
        ensures { Opens R.File.remaining self.old self.new answer result }
    {
        match answer {
            Ok(file) => {
                self.file = Some(file);
                Ok(())
            }
            Err(error) => {
                self.file = None;
                match error.kind() {
                    ErrorKind::NotFound => self.missing = self.missing.saturating_add(1),
                    _ => self.faults = self.faults.saturating_add(1),
                }
                Err(Failed)
            }
        }
    }
}

impl<'a, R: Files> Inputs for FileInputs<'a, R> {
    ghost told = { told_of };

    fn select(&mut self, name: &str) -> Result<(), Failed>
        ensures selects { Selects (told_of self.old) (told_of self.new) name.now result }
        ensures counts { SelectsFile self.old self.new result }
    {
        let answer = fs::open(self.rt, name);
        self.opened(answer)
    }

    fn read(&mut self, into: &mut [u8]) -> Result<usize, Failed>
        requires { 0 < length into.old }
        ensures reads { Reads (told_of self.old) (told_of self.new) into.new result }
        ensures counts { ReadsFile self.old self.new result }
    {
        let Some(file) = &mut self.file else {
            return Ok(0);
        };
        let answer = file.read(into);
        if let Ok(count) = answer {
            return Ok(count);
        }
        self.faults = self.faults.saturating_add(1);
        Err(Failed)
    }
}

/// A writer of the system, as standard output, of whose content nothing is told but what the writer
/// itself tells, and standard output tells nothing.
///
/// Each `Failed` raises the count by one: an error of the system, or a write that took no byte.
#[derive(Drop)]
pub struct StdSink<W: Write + Drop> {
    out: W,
    faults: u64,
}

impl<W: Write + Drop> Model for StdSink<W> {
    ghost use Rattle.doc_io.specs.Causes.{SinkTold};

    ghost Value = { SinkTold };

    ghost view = { λ sink. record { written = W.contents sink.out; faults = sink.faults } };
}

impl<W: Write + Drop> StdSink<W> {
    /// A writer, without a fault so far.
    pub fn make(out: W) -> StdSink<W>
        ensures { result ≡ record { written = W.contents out; faults = 0 } }
    {
        StdSink { out, faults: 0 }
    }
}

impl<W: Write + Drop> StdSink<W> {
    /// What the system answered to a write: bytes that it took, or else a fault that is counted.
    fn counted(&mut self, answer: io::Result<usize>) -> Result<usize, Failed>
        ensures written { self.new.written ≡ self.old.written }
        ensures faults { self.old.faults ≤ self.new.faults }
        ensures taken { IfOk answer (λ n. 0 < n → result ≡ Ok n) }
        ensures none { IfOk answer (λ n. n ≡ 0 → IsErr result) }
        ensures failed { OnErr answer (IsErr result) }
        ensures counts { MatchResult result
            (λ n. (0 < n) × (answer ≡ Ok n) × (self.new.faults ≡ self.old.faults))
            (λ _. self.new.faults ≡ raised self.old.faults) }
    {
        if let Ok(count) = answer
            && count > 0
        {
            return Ok(count);
        }
        self.faults = self.faults.saturating_add(1);
        Err(Failed)
    }
}

impl<W: Write + Drop> Sink for StdSink<W> {
    ghost told = { λ sink. sink };

    fn write(&mut self, from: &[u8]) -> Result<usize, Failed>
        requires { 0 < length from.now }
        ensures writes { Writes self.old self.new from.now result }
        ensures counts { MatchResult result
            (λ _. self.new.faults ≡ self.old.faults) (λ _. self.new.faults
            ≡ raised self.old.faults) }
    {
        let answer = self.out.write(from);
        self.counted(answer)
    }
}

use crate::answer::Answer;
use crate::fault::Fault;
use crate::files::KnownFiles;
use crate::kinds::{Case, Kinds};
use crate::lines::Line;
use doc_io::Inputs;
use serde_json::Value;
use std::alloc::Global;
use std::io::{self, BufRead, Write};

/// What is known while the lines of the input are gone through.
#[derive(Drop)]
pub struct Session<'a, I: Inputs, K: Kinds> {
    alloc: Global,
    /// The files of data/.
    inputs: I,
    kinds: &'a K,
    files: KnownFiles,
    /// Whether each line so far could be read.
    all_read: bool,
}

impl<'a, I: Inputs + Drop, K: Kinds> Session<'a, I, K> {
    /// A session that has read no line.
    pub fn new(alloc: Global, inputs: I, kinds: &'a K) -> Session<'a, I, K> {
        Session {
            alloc,
            inputs,
            kinds,
            files: KnownFiles::new(alloc),
            all_read: true,
        }
    }

    /// Carries out line after line and writes what came of each, and says whether every line could
    /// be read. One that can't be read is told with its number, counted from 1.
    pub fn carry_out<R: BufRead + Drop, W: Write>(
        &mut self,
        lines: R,
        output: &mut W,
    ) -> io::Result<bool> {
        for (index, line) in lines.split(self.alloc, b'\n').enumerate() {
            self.take_read(index.saturating_add(1), line, output)?;
        }
        Ok(self.all_read)
    }

    /// Carries out a line, where it could be read from the input.
    fn take_read<W: Write>(
        &mut self,
        number: usize,
        line: io::Result<Vec<u8>>,
        output: &mut W,
    ) -> io::Result<()> {
        match line {
            Ok(line) => self.take(number, line.as_slice(), output),
            Err(error) => Err(error),
        }
    }

    /// Carries out a line, and writes what came of it.
    fn take<W: Write>(&mut self, number: usize, line: &[u8], output: &mut W) -> io::Result<()> {
        match self.answer(line) {
            Ok(None) => Ok(()),
            Ok(Some(answer)) => write_case(line, &answer, output),
            Err(fault) => {
                self.all_read = false;
                writeln!(output, "line {number}: {fault}")
            }
        }
    }

    /// What comes of a line, where it is a case.
    fn answer(&mut self, line: &[u8]) -> Result<Option<Answer>, Fault> {
        match read_line(line)? {
            Line::Case { kind, value } => self.answer_case(kind, value),
            line => {
                self.take_in(line)?;
                Ok(None)
            }
        }
    }

    /// Has the files know what a line says of them, which a case doesn't.
    fn take_in(&mut self, line: Line) -> Result<(), Fault> {
        match line {
            Line::Load(name) => self.files.load(self.alloc, name, &mut self.inputs),
            Line::Begin(name) => self.files.begin(self.alloc, name),
            Line::Content(content) => content.add_to(self.alloc, &mut self.files),
            Line::Passed | Line::Case { .. } => Ok(()),
        }
    }

    fn answer_case(&mut self, kind: &str, text: &str) -> Result<Option<Answer>, Fault> {
        self.files.end();
        let value = Value::from_str(self.alloc, text)?;
        self.answer_value(kind, &value)
    }

    fn answer_value(&self, kind: &str, value: &Value) -> Result<Option<Answer>, Fault> {
        let case = Case {
            alloc: self.alloc,
            value,
            files: &self.files,
        };
        let answer = self.kinds.answer(kind, case)?;
        Ok(Some(answer))
    }
}

/// What a line says, where it is text.
fn read_line(line: &[u8]) -> Result<Line<'_>, Fault> {
    match str::from_utf8(line) {
        Ok(text) => Line::of_text(text),
        Err(_) => Err(Fault::NotText),
    }
}

/// Writes a case as it stands, and what came of it.
fn write_case<W: Write>(case: &[u8], answer: &Answer, output: &mut W) -> io::Result<()> {
    output.write_all(case)?;
    output.write_all(b"\n")?;
    answer.write(output)
}

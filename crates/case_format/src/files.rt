use crate::fault::Fault;
use crate::lines::is_same;
use crate::numbered::Span;
use doc_io::{Inputs, read_all};
use fixed_units::List;
use font_metrics::Metrics;
use metrics_file::{MOST_FILE_BYTES, read_metrics};
use std::alloc::Global;

/// The most bytes that a file may have: more than any limit of the program that is tried, so that
/// a rule with too large numbers ends.
const MOST_BYTES: usize = 67_108_864;

/// The files that are known, each name once.
#[derive(Drop)]
pub struct KnownFiles {
    files: Vec<KnownFile>,
    /// Where the file stands to which lines add.
    open: Option<usize>,
}

/// A file that is known.
#[derive(Drop)]
struct KnownFile {
    name: String,
    bytes: List<u8>,
}

impl KnownFiles {
    /// No file.
    pub fn new(alloc: Global) -> KnownFiles {
        KnownFiles {
            files: Vec::new(alloc),
            open: None,
        }
    }

    /// Makes a file of data/ known.
    pub fn load<I: Inputs>(
        &mut self,
        alloc: Global,
        name: &str,
        inputs: &mut I,
    ) -> Result<(), Fault> {
        self.end();
        let bytes = read_all(alloc, inputs, name, MOST_BYTES)?;
        self.put(alloc, name, bytes)?;
        Ok(())
    }

    /// Begins a file, to which the next lines add.
    pub fn begin(&mut self, alloc: Global, name: &str) -> Result<(), Fault> {
        let place = self.put(alloc, name, List::make(alloc))?;
        self.open = Some(place);
        Ok(())
    }

    /// Ends the file to which lines were added.
    pub fn end(&mut self) {
        self.open = None;
    }

    /// Adds to the file that was begun.
    pub fn add(&mut self, bytes: &[u8]) -> Result<(), Fault> {
        let place = self.open.ok_or(Fault::NoFileAbove)?;
        match self.files.get_mut(place) {
            Some(file) => file.add(bytes),
            None => Err(Fault::NoFileAbove),
        }
    }

    /// Adds the content of a known file.
    pub fn add_file(&mut self, alloc: Global, name: &str) -> Result<(), Fault> {
        let copied = self.list(name)?.copy(alloc)?;
        self.add(copied.as_slice())
    }

    /// Adds lines of a known file, which has to have them.
    pub fn add_lines(&mut self, alloc: Global, name: &str, span: Span) -> Result<(), Fault> {
        let copied = self.list(name)?.copy(alloc)?;
        self.add_lines_of(copied.as_slice(), span)
    }

    fn add_lines_of(&mut self, bytes: &[u8], span: Span) -> Result<(), Fault> {
        let count = bytes.split_inclusive(is_line_feed).count();
        if !span.is_within(count) {
            return Err(Fault::NoSuchLines);
        }
        for (index, line) in bytes.split_inclusive(is_line_feed).enumerate() {
            if span.has(index.saturating_add(1)) {
                self.add(line)?;
            }
        }
        Ok(())
    }

    /// The content of a known file.
    pub fn bytes(&self, name: &str) -> Result<&[u8], Fault> {
        Ok(self.list(name)?.as_slice())
    }

    /// The metrics of a known file.
    pub fn metrics(&self, alloc: Global, name: &str) -> Result<Metrics, Fault> {
        let bytes = self.bytes(name)?;
        if bytes.len() <= MOST_FILE_BYTES {
            Ok(read_metrics(alloc, bytes)?)
        } else {
            Err(Fault::FileTooLong)
        }
    }

    fn list(&self, name: &str) -> Result<&List<u8>, Fault> {
        for file in self.files.as_slice() {
            if is_same(file.name.as_str(), name) {
                return Ok(&file.bytes);
            }
        }
        Err(Fault::UnknownFile)
    }

    /// Puts a file in place of the one of that name, and says where it stands.
    fn put(&mut self, alloc: Global, name: &str, bytes: List<u8>) -> Result<usize, Fault> {
        let place = self.place_of(name);
        match self.files.get_mut(place) {
            Some(file) => file.bytes = bytes,
            None => {
                let name = String::from_str(alloc, name)?;
                self.files.push(KnownFile { name, bytes })?;
            }
        }
        Ok(place)
    }

    /// Where the file of a name stands, or would be put.
    fn place_of(&self, name: &str) -> usize {
        for (place, file) in self.files.as_slice().iter().enumerate() {
            if is_same(file.name.as_str(), name) {
                return place;
            }
        }
        self.files.len()
    }
}

impl KnownFile {
    /// Adds to its end.
    fn add(&mut self, bytes: &[u8]) -> Result<(), Fault> {
        if bytes.len() <= MOST_BYTES.saturating_sub(self.bytes.len()) {
            self.bytes.push_all(bytes)?;
            Ok(())
        } else {
            Err(Fault::FileTooLong)
        }
    }
}

/// Whether a byte ends a line.
pub fn is_line_feed(byte: &u8) -> bool {
    *byte == b'\n'
}

use crate::fault::Fault;
use crate::files::is_line_feed;
use doc_io::MemorySink;
use std::alloc::AllocError;
use std::io::{self, Write};

/// What came of a case.
#[derive(Drop)]
pub enum Answer {
    /// One answer in these words, which have no line feed.
    One(String),
    /// How a run ended, and what it wrote.
    Run(Ended),
}

/// How a run ended, and what it wrote.
#[derive(Drop)]
pub struct Ended {
    /// The number of its exit status.
    pub status: u8,
    pub written: MemorySink,
    /// Whether only the sum of what it wrote is told.
    pub summed: bool,
}

/// What came of writing the last words of an answer. It's asked at the end of a function in place
/// of a `?`, since each `?` makes the proof of its function longer.
pub fn written(outcome: Result<(), AllocError>) -> Result<(), Fault> {
    Ok(outcome?)
}

impl Answer {
    /// Writes its lines.
    pub fn write<W: Write>(&self, output: &mut W) -> io::Result<()> {
        match self {
            Answer::One(words) => writeln!(output, "= {words}"),
            Answer::Run(ended) => ended.write(output),
        }
    }
}

impl Ended {
    fn write<W: Write>(&self, output: &mut W) -> io::Result<()> {
        writeln!(output, "status {}", self.status)?;
        if self.summed {
            write_sum(self.written.bytes(), output)
        } else {
            write_lines(self.written.bytes(), output)
        }
    }
}

/// Each line behind a `|`, and a last piece without line feed behind a `+`.
fn write_lines<W: Write>(bytes: &[u8], output: &mut W) -> io::Result<()> {
    for line in bytes.split_inclusive(is_line_feed) {
        if line.ends_with(b"\n") {
            output.write_all(b"|")?;
            output.write_all(line)?;
        } else {
            output.write_all(b"+")?;
            output.write_all(line)?;
            output.write_all(b"\n")?;
        }
    }
    Ok(())
}

/// How many line feeds and bytes there are, and the bytes' hash.
fn write_sum<W: Write>(bytes: &[u8], output: &mut W) -> io::Result<()> {
    let lines = bytes.iter().filter(|byte| **byte == b'\n').count();
    let size = bytes.len();
    let hash = fnv_1a(bytes);
    writeln!(output, "sum {lines} {size} {hash:016x}")
}

/// The 64-bit FNV-1a hash.
fn fnv_1a(bytes: &[u8]) -> u64 {
    let mut hash = 0xcbf2_9ce4_8422_2325;
    for byte in bytes {
        hash = with_byte(hash, *byte);
    }
    hash
}

/// The hash with one byte more.
fn with_byte(hash: u64, byte: u8) -> u64 {
    (hash ^ u64::from(byte)).wrapping_mul(0x0100_0000_01b3)
}

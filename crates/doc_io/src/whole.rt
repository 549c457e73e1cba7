ghost use Rattle.std.specs.Prelude.{◌≡◌, ◌+◌, IsErrOf};
ghost use Rattle.doc_io.specs.Whole.{ConsumesAtMost, ConsumesSome, Ends, ReadsAll, ReadsRest, ReadsSome, ReadsWithin, WritesAll};
ghost use Rattle.doc_io.specs.declared.whole.ReadRefusal.TheVariants.{ReadFault, Memory as NoMemory};

use crate::{Failed, Inputs, Sink};
use fixed_units::{List, Memory};
use std::alloc::Global;
use thiserror::Error;

/// Why a whole file wasn't read.
#[derive(Clone, Copy, Debug, PartialEq, Eq, Error)]
pub enum ReadRefusal {
    /// A call of the inputs failed: a count of theirs rose.
    #[error("a read failed")]
    ReadFault,
    /// The file has more bytes than the limit.
    #[error("the file is too long")]
    TooLong,
    /// Memory was refused.
    #[error("memory was refused")]
    Memory,
}

impl From<Failed> for ReadRefusal {
    ghost from_gives = { λ _ refusal. refusal ≡ ReadFault };

    fn from(_: Failed) -> Self {
        ReadRefusal::ReadFault
    }
}

impl From<Memory> for ReadRefusal {
    ghost from_gives = { λ _ refusal. refusal ≡ NoMemory };

    fn from(_: Memory) -> Self {
        ReadRefusal::Memory
    }
}

/// A piece wasn't written whole: the sink's count of faults rose.
#[derive(Clone, Copy, Debug, PartialEq, Eq, Error)]
#[error("a write failed")]
pub struct WriteFault;

/// How many bytes one read asks for.
const BLOCK: usize = 16384;

/// The whole file of a name, which may have at most `limit` bytes.
///
/// It reads at most `limit + 1` bytes of the file, however long that is. Memory can be wanted only
/// for bytes that were read: fewer than the limit, or a whole file of just that length. So once as
/// much was read as may be, a longer file is `TooLong` before memory is taken for it.
#[tactic(auto, using(crate::proofs::Within::reads_within, crate::proofs::Within::reads_some))]
pub fn read_all<I: Inputs>(
    alloc: Global,
    inputs: &mut I,
    name: &str,
    limit: usize,
) -> Result<List<u8>, ReadRefusal>
    ensures reads { ReadsAll (I.told inputs.old) (I.told inputs.new) name.now limit result }
    ensures within { ReadsWithin (limit + 1) (I.told inputs.old) (I.told inputs.new)
        name.now result }
    ensures memory { IsErrOf result NoMemory
        → ReadsSome limit (I.told inputs.old) (I.told inputs.new) name.now }
{
    match inputs.select(name) {
        Ok(()) => read_rest(alloc, inputs, limit),
        Err(_) => Err(ReadRefusal::ReadFault),
    }
}

/// Appends a whole piece to what was written. After a fault a front of it was written.
pub fn write_all<O: Sink>(out: &mut O, bytes: &[u8]) -> Result<(), WriteFault>
    ensures { WritesAll (O.told out.old) (O.told out.new) bytes.now result }
{
    let mut at = 0;
    while at < bytes.len() {
        match out.write(&bytes[at..]) {
            Ok(count) => at += count,
            Err(_) => return Err(WriteFault),
        }
    }
    Ok(())
}

/// What is left of the selected file, which may be at most `limit` bytes.
fn read_rest<I: Inputs>(
    alloc: Global,
    inputs: &mut I,
    limit: usize,
) -> Result<List<u8>, ReadRefusal>
    ensures reads { ReadsRest (I.told inputs.old) (I.told inputs.new) limit result }
    ensures within { ConsumesAtMost (limit + 1) (I.told inputs.old).rest (I.told inputs.new).rest }
    ensures memory { IsErrOf result NoMemory
        → ConsumesSome limit (I.told inputs.old).rest (I.told inputs.new).rest }
{
    let mut bytes = List::make(alloc);
    expect_end(inputs, limit)?;
    let mut block = [0u8; BLOCK];
    while bytes.len() < limit {
        let room = limit - bytes.len();
        let count = inputs.read(&mut block[..room.min(BLOCK)])?;
        if count == 0 {
            return Ok(bytes);
        }
        expect_end(inputs, room - count)?;
        bytes.push_all(&block[..count])?;
    }
    Ok(bytes)
}

/// Where so many bytes more may be read and these are none, sees that none is left: one byte more
/// alone tells a file of the limit's length from a longer one.
fn expect_end<I: Inputs>(inputs: &mut I, room: usize) -> Result<(), ReadRefusal>
    ensures ends { Ends (I.told inputs.old) (I.told inputs.new) room result }
{
    if room == 0 {
        let mut one = [0u8; 1];
        if inputs.read(&mut one)? > 0 {
            return Err(ReadRefusal::TooLong);
        }
    }
    Ok(())
}

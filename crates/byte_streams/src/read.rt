ghost use Rattle.std.specs.Prelude.{◌≡◌, ◌+◌, ◌≤◌, Err, IfOk};
ghost use Rattle.coding_base.specs.Faults.{Rose};
ghost use Rattle.byte_streams.specs.declared.read.ReadError.TheVariants.{Failed, TooLong};
ghost use Rattle.byte_streams.specs.Streams.{ReadsAll, IsTooLong, TakesAtMost};

use crate::source::Source;
use std::alloc::Global;
use thiserror::Error;

/// Why a source's bytes aren't all there.
#[derive(Clone, Copy, Debug, PartialEq, Eq, Error)]
pub enum ReadError {
    /// The source failed.
    #[error("the source failed")]
    Failed,
    /// The source has more bytes than the limit.
    #[error("the source has more bytes than the limit")]
    TooLong,
    /// Memory ran out.
    #[error("out of memory")]
    OutOfMemory,
}

// The most bytes of one read.
const PIECE: usize = 4096;

/// All bytes of a source, read to its end, where they are no more than the limit; at most one byte more is taken.
///
/// `Failed` is answered where the source failed, `TooLong` where it has more bytes, `OutOfMemory` where memory ran out.
pub fn read_all<R: Source>(
    alloc: Global,
    source: &mut R,
    limit: usize,
) -> Result<Vec<u8>, ReadError>
    ensures whole { IfOk result (λ bytes.
        ReadsAll limit (R.left source.old) (R.left source.new) (λ all. all ≡ bytes.items)) }
    ensures failed { result ≡ Err Failed → Rose (R.faults source.old) (R.faults source.new) }
    ensures too_long { result ≡ Err TooLong
        → IsTooLong limit (R.left source.old) (R.left source.new) }
    ensures bounded { TakesAtMost (limit + 1) (R.left source.old) (R.left source.new) }
    ensures later { R.faults source.old ≤ R.faults source.new }
{
    let mut bytes = Vec::new(alloc);
    let mut piece = [0; PIECE];
    while bytes.len() <= limit {
        let room = (limit - bytes.len()).saturating_add(1).min(PIECE);
        let buf = &mut piece[..room];
        let Ok(count) = source.read(buf) else {
            return Err(ReadError::Failed);
        };
        if count == 0 {
            return Ok(bytes);
        }
        if bytes.extend_from_slice(&buf[..count]).is_err() {
            return Err(ReadError::OutOfMemory);
        }
    }
    Err(ReadError::TooLong)
}

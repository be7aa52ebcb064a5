//! Reading a script whole.

ghost use Rattle.std.specs.Prelude.{◌≡◌, ◌+◌, ◌≤◌, take, length, IfOk, IfErr, IfSome};
ghost use Rattle.rv_script.specs.Whole.{IsScript, IsRefused, most_bytes};

use std::alloc::Global;
use std::io;
use std::io::Read;

/// The greatest length of a script, in bytes.
pub const MOST_BYTES: usize = 16_777_216;

// One byte more than that is asked for, which tells that a script is too long.
const ASKED: usize = MOST_BYTES + 1;

/// Why a reader gave no bytes.
#[derive(Drop)]
pub enum ReadError {
    /// Memory was refused.
    Memory,
    /// A read failed.
    Io(io::Error),
}

/// Why bytes are no script.
#[derive(Clone, Copy, Debug, Drop, PartialEq, Eq)]
pub enum TextError {
    /// They are more than `MOST_BYTES`.
    TooLong,
    /// They aren't UTF-8.
    NotText,
}

/// What a reader gives, up to one byte past the greatest length.
pub fn read_script<R: Read>(alloc: Global, reader: &mut R) -> Result<Vec<u8>, ReadError>
    ensures bytes { IfOk result (λ all.
        IfSome (R.remaining reader.old) (λ input. all.items ≡ take (most_bytes + 1) input)) }
    ensures within { IfOk result (λ all. length all.items ≤ most_bytes + 1) }
{
    let mut all = Vec::new(alloc);
    let mut chunk = [0; 4096];
    while all.len() < ASKED {
        let left = ASKED - all.len();
        let room = if left < 4096 { left } else { 4096 };
        let count = match reader.read(&mut chunk[..room]) {
            Ok(count) => count,
            Err(e) => return Err(ReadError::Io(e)),
        };
        if count < 1 {
            return Ok(all);
        }
        match all.extend_from_slice(&chunk[..count]) {
            Ok(()) => {}
            Err(_) => return Err(ReadError::Memory),
        }
    }
    Ok(all)
}

/// The text that the bytes of a script are. The length is looked at first.
pub fn text_of(bytes: &[u8]) -> Result<&str, TextError>
    ensures ok { IfOk result (λ text. (text.now ≡ bytes.now) × IsScript bytes.now) }
    ensures err { IfErr result (λ error. IsRefused bytes.now error) }
{
    if bytes.len() > MOST_BYTES {
        return Err(TextError::TooLong);
    }
    match str::from_utf8(bytes) {
        Ok(text) => Ok(text),
        Err(_) => Err(TextError::NotText),
    }
}

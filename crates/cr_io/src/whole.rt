ghost use Rattle.std.specs.Prelude.{◌≡◌, ◌≢◌, ◌<◌, ◌≤◌, ◌+◌, ◌++◌, [], List, ℕ, true, false, length, vec_len, IfOk, OnOk, IfSome, IsErrOf, Some};
ghost use Rattle.cr_io.specs.Faults.{Rose};
ghost use Rattle.cr_io.specs.Source.{Takes};

use crate::source::{Failed, Source};
use std::alloc::{AllocError, Global};

/// Why a source was not read whole.
#[derive(Clone, Copy, Debug, PartialEq, Eq)]
pub enum ReadAll {
    /// A read failed.
    Fault,
    /// More bytes came than the limit.
    TooLong,
    /// Want of memory.
    NoMemory,
}

impl From<Failed> for ReadAll {
    ghost use Rattle.std.specs.Prelude.{◌≡◌};
    ghost use Rattle.cr_io.specs.declared.whole.ReadAll.TheVariants.{Fault};

    ghost from_gives = { λ _ e. e ≡ Fault };

    fn from(_: Failed) -> Self {
        ReadAll::Fault
    }
}

impl From<AllocError> for ReadAll {
    ghost use Rattle.std.specs.Prelude.{◌≡◌};
    ghost use Rattle.cr_io.specs.declared.whole.ReadAll.TheVariants.{NoMemory};

    ghost from_gives = { λ _ e. e ≡ NoMemory };

    fn from(_: AllocError) -> Self {
        ReadAll::NoMemory
    }
}

/// One turn of `read_all`: reads one piece and puts it last. `false` is the end.
fn read_piece<S: Source>(
    source: &mut S,
    buf: &mut [u8],
    bytes: &mut Vec<u8>,
    limit: usize,
) -> Result<bool, ReadAll>
    requires buffer { 0 < length buf.old }
    requires short { vec_len bytes.old ≤ limit }
    ensures more { result ≡ Ok true → vec_len bytes.old < vec_len bytes.new }
    ensures end { result ≡ Ok false → S.met_end source.new ≡ true }
    ensures nothing { result ≡ Ok false → IfSome (S.left source.old) (λ left. left ≡ []) }
    ensures same { result ≡ Ok false → bytes.new.items ≡ bytes.old.items }
    ensures takes { OnOk result (Takes (S.left source.old) bytes.old.items (S.left source.new) bytes.new.items) }
    ensures within { OnOk result (vec_len bytes.new ≤ limit) }
    ensures too_long { IsErrOf result ReadAll.TooLong → IfSome (S.left source.old) (λ left. limit < vec_len bytes.old + length left) }
    ensures fault { IsErrOf result ReadAll.Fault → Rose (S.faults source.old) (S.faults source.new) }
    ensures later { S.faults source.old ≤ S.faults source.new }
    ensures steady { result ≢ Err ReadAll.Fault → S.faults source.new ≡ S.faults source.old }
{
    let count = source.read(buf)?;
    if count > limit - bytes.len() {
        return Err(ReadAll::TooLong);
    }
    bytes.extend_from_slice(&buf[..count])?;
    Ok(count > 0)
}

/// `read_all` through this buffer.
fn read_through<S: Source>(
    alloc: Global,
    source: &mut S,
    buf: &mut [u8],
    limit: usize,
) -> Result<Vec<u8>, ReadAll>
    requires { 0 < length buf.old }
    ensures ended { OnOk result (S.met_end source.new ≡ true) }
    ensures all { IfOk result (λ bytes. IfSome (S.left source.old) (λ left. bytes.items ≡ left)) }
    ensures none_left { OnOk result (IfSome (S.left source.old) (λ _. S.left source.new ≡ Some [])) }
    ensures short { IfOk result (λ bytes. vec_len bytes ≤ limit) }
    ensures too_long { IsErrOf result ReadAll.TooLong → IfSome (S.left source.old) (λ left. limit < length left) }
    ensures fault { IsErrOf result ReadAll.Fault → Rose (S.faults source.old) (S.faults source.new) }
    ensures later { S.faults source.old ≤ S.faults source.new }
    ensures steady { result ≢ Err ReadAll.Fault → S.faults source.new ≡ S.faults source.old }
{
    let mut bytes = Vec::new(alloc);
    while read_piece(source, buf, &mut bytes, limit)? {}
    Ok(bytes)
}

fn zeros(alloc: Global, len: usize) -> Result<Vec<u8>, AllocError>
    ensures { IfOk result (λ bytes. vec_len bytes ≡ len) }
{
    vec![in alloc; 0u8; len]
}

/// Reads a source to its end, in pieces of at most 65,536 bytes. After an error the source has lost what was read.
/// It returns, because each of its turns takes at least one byte or is the last.
pub fn read_all<S: Source>(alloc: Global, source: &mut S, limit: usize) -> Result<Vec<u8>, ReadAll>
    ensures ended { OnOk result (S.met_end source.new ≡ true) }
    ensures all { IfOk result (λ bytes. IfSome (S.left source.old) (λ left. bytes.items ≡ left)) }
    ensures none_left { OnOk result (IfSome (S.left source.old) (λ _. S.left source.new ≡ Some [])) }
    ensures short { IfOk result (λ bytes. vec_len bytes ≤ limit) }
    ensures too_long { IsErrOf result ReadAll.TooLong → IfSome (S.left source.old) (λ left. limit < length left) }
    ensures fault { IsErrOf result ReadAll.Fault → Rose (S.faults source.old) (S.faults source.new) }
    ensures later { S.faults source.old ≤ S.faults source.new }
    ensures steady { result ≢ Err ReadAll.Fault → S.faults source.new ≡ S.faults source.old }
{
    let mut buf = zeros(alloc, 65_536)?;
    read_through(alloc, source, &mut buf, limit)
}

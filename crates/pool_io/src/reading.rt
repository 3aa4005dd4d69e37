ghost use Rattle.std.specs.Prelude.{◌≡◌, ℕ, ◌+◌, ◌<◌, ◌≤◌, ◌↔◌, length, take, drop, vec_len, IfOk, IfErr, OnOk, OnErr, IfSome, MatchResult};
ghost use Rattle.std.specs.Result.{IsErrOf};
ghost use Rattle.std.specs.Io.KnownBytes.{Consumes, IsAtEnd, Keeps};
ghost use Rattle.pool_io.specs.Faults.{Rose};
ghost use Rattle.pool_io.specs.Source.{Loses};

use crate::source::{Failed, Source};
use std::alloc::Global;

/// Why a source was not read whole.
#[derive(Clone, Copy)]
pub enum ReadAll {
    /// A read of the source failed.
    ReadFault,
    /// More bytes came than the limit.
    TooLong { limit: u64 },
    /// There was no memory for the bytes.
    OutOfMemory,
}

// How many bytes the first read may bring; each later one may bring as many as came before.
const FIRST_READ: usize = 65_536;

// Makes room for one more byte at least, and for `limit + 1` in all at most.
fn make_room(bytes: &mut Vec<u8>, filled: usize, limit: u64) -> Result<(), ReadAll>
    requires within { filled ≤ vec_len bytes.old }
    requires below { filled ≤ limit }
    requires capped { vec_len bytes.old ≤ limit + 1 }
    ensures kept { OnOk result (take filled bytes.new.items ≡ take filled bytes.old.items) }
    ensures room { OnOk result (filled < vec_len bytes.new) }
    ensures capped { OnOk result (vec_len bytes.new ≤ limit + 1) }
    ensures no_memory { IfErr result (λ fault. fault ≡ ReadAll.OutOfMemory) }
{
    if filled < bytes.len() {
        return Ok(());
    }
    let wanted = filled.saturating_mul(2).max(FIRST_READ);
    let room = wanted.min((limit as usize).saturating_add(1));
    if room <= filled || bytes.resize(room, 0).is_err() {
        return Err(ReadAll::OutOfMemory);
    }
    Ok(())
}

// One read into the part of the buffer that isn't filled.
fn read_more<S: Source>(source: &mut S, bytes: &mut Vec<u8>, filled: usize) -> Result<usize, Failed>
    requires { filled < vec_len bytes.old }
    ensures len { vec_len bytes.new ≡ vec_len bytes.old }
    ensures kept { take filled bytes.new.items ≡ take filled bytes.old.items }
    ensures within { IfOk result (λ n. filled + n ≤ vec_len bytes.new) }
    ensures came { MatchResult result
        (λ n. Consumes (S.left source.old) (S.left source.new) (take n (drop filled bytes.new.items)))
        (λ _. Keeps (S.left source.old) (S.left source.new)) }
    ensures ended { IfOk result (λ n. n ≡ 0 → IsAtEnd (S.left source.new)) }
    ensures counted { MatchResult result
        (λ n. S.taken source.new ≡ S.taken source.old + n) (λ _. S.taken source.new ≡ S.taken source.old) }
    ensures fault { OnErr result (Rose (S.faults source.old) (S.faults source.new)) }
    ensures never_falls { S.faults source.old ≤ S.faults source.new }
{
    source.read(&mut bytes[filled..])
}

/// All bytes of the source, to its end. It reads in pieces of 64 KiB, and larger ones as they come.
///
/// `ReadFault` comes only where a read failed, and `TooLong` exactly where `limit + 1` bytes were
/// taken. After a refusal the bytes that were taken are lost.
pub fn read_all<S: Source>(alloc: Global, source: &mut S, limit: u64) -> Result<Vec<u8>, ReadAll>
    ensures whole { IfOk result (λ bytes. IfSome (S.left source.old) (λ told. bytes.items ≡ told)) }
    ensures ended { OnOk result (IsAtEnd (S.left source.new)) }
    ensures counted { IfOk result (λ bytes. S.taken source.new ≡ S.taken source.old + vec_len bytes) }
    ensures within { IfOk result (λ bytes. vec_len bytes ≤ limit) }

    // Whatever the answer, the bytes that were taken are gone from those still to come.
    ensures moved { (count : ℕ) × (count ≤ limit + 1) × (S.taken source.new ≡ S.taken source.old + count)
        × Loses (S.left source.old) (S.left source.new) count }
    ensures too_long { IsErrOf result (ReadAll.TooLong limit)
        ↔ (S.taken source.new ≡ S.taken source.old + (limit + 1)) }
    ensures its_limit { (bound : ℕ) → IsErrOf result (ReadAll.TooLong bound) → bound ≡ limit }
    ensures fault { IsErrOf result ReadAll.ReadFault → Rose (S.faults source.old) (S.faults source.new) }
    ensures never_falls { S.faults source.old ≤ S.faults source.new }
{
    let mut bytes = Vec::new(alloc);
    let mut filled = 0;
    'reads: loop {
        make_room(&mut bytes, filled, limit)?;
        match read_more(source, &mut bytes, filled) {
            Err(Failed) => return Err(ReadAll::ReadFault),
            Ok(0) => {
                bytes.truncate(filled);
                return Ok(bytes);
            }
            Ok(count) => filled += count,
        }
        if filled as u64 > limit {
            return Err(ReadAll::TooLong { limit });
        }
    }
}

ghost use Rattle.std.specs.Prelude.{◌≡◌, ◌+◌, ◌<◌, ◌≤◌, ℕ, [], IfOk, IfSome, IsErrOf, OnErr, OnOk, length, take, vec_len};
ghost use Rattle.mig_base.specs.Count.{HasCause, RisesBy};
ghost use Rattle.mig_base.specs.Stream.{Gathers, with_more};

use crate::{Failed, Sink, Source};
use std::alloc::{AllocError, Global};

/// The most that one read is asked for, in bytes.
const PIECE: usize = 65536;

/// Why a source wasn't read to its end.
#[derive(Clone, Copy, Debug, PartialEq, Eq)]
pub enum CollectRefusal {
    /// A read failed.
    Fault,
    /// More bytes came than were allowed.
    TooLong,
    /// There was no memory for the bytes.
    OutOfMemory,
}

impl From<AllocError> for CollectRefusal {
    ghost use Rattle.std.specs.Prelude.{◌≡◌};
    ghost use Rattle.mig_base.specs.declared.streams.CollectRefusal.TheVariants.{OutOfMemory};

    ghost from_gives = { λ _ e. e ≡ OutOfMemory };

    fn from(_: AllocError) -> CollectRefusal {
        CollectRefusal::OutOfMemory
    }
}

/// Writes until the whole piece is taken.
///
/// # Errors
///
/// `Failed` only where the sink's count of faults rose. A front of the piece was taken then.
pub fn send<K: Sink>(sink: &mut K, piece: &[u8]) -> Result<(), Failed>
    ensures sent { OnOk result (K.bytes sink.new ≡ with_more piece.now (K.bytes sink.old)) }
    ensures part { OnErr result ((n : ℕ) × (n ≤ length piece.now)
        × (K.bytes sink.new ≡ with_more (take n piece.now) (K.bytes sink.old))) }
    ensures cause { HasCause (K.faults sink.old) (K.faults sink.new) result }
{
    let mut sent = 0;
    while sent < piece.len() {
        match sink.write(&piece[sent..]) {
            Ok(count) => sent += count,
            Err(failed) => return Err(failed),
        }
    }
    Ok(())
}

/// Reads the source to its end, and answers all its bytes: at most `most` of them.
///
/// # Errors
///
/// `TooLong` where more than `most` bytes came, `Fault` only where the source's count of faults rose, and
/// `OutOfMemory`. Some bytes were read then.
pub fn collect<S: Source>(
    alloc: Global,
    source: &mut S,
    most: usize,
) -> Result<Vec<u8>, CollectRefusal>
    ensures all { IfOk result (λ v. IfSome (S.left source.old) (λ left. v.items ≡ left)) }
    ensures short { IfOk result (λ v. length v.items ≤ most) }
    ensures too_long { IsErrOf result CollectRefusal.TooLong
        → IfSome (S.left source.old) (λ left. most < length left) }
    ensures fault { IsErrOf result CollectRefusal.Fault → RisesBy 1 (S.faults source.old) (S.faults source.new) }
    ensures calm { (IsErrOf result CollectRefusal.Fault → ⊥) → S.faults source.new ≡ S.faults source.old }
{
    let mut piece = vec![in alloc; 0u8; PIECE]?;
    collect_through(alloc, source, most, &mut piece)
}

/// Reads the source to its end, through that piece of memory.
fn collect_through<S: Source>(
    alloc: Global,
    source: &mut S,
    most: usize,
    piece: &mut [u8],
) -> Result<Vec<u8>, CollectRefusal>
    requires { 0 < length piece.old }
    ensures all { IfOk result (λ v. IfSome (S.left source.old) (λ left. v.items ≡ left)) }
    ensures short { IfOk result (λ v. length v.items ≤ most) }
    ensures too_long { IsErrOf result CollectRefusal.TooLong
        → IfSome (S.left source.old) (λ left. most < length left) }
    ensures fault { IsErrOf result CollectRefusal.Fault → RisesBy 1 (S.faults source.old) (S.faults source.new) }
    ensures calm { (IsErrOf result CollectRefusal.Fault → ⊥) → S.faults source.new ≡ S.faults source.old }
{
    let mut bytes = Vec::new(alloc);
    while bytes.len() <= most {
        let room = (most - bytes.len()).min(piece.len() - 1) + 1;
        match read_on(source, &mut piece[..room], &mut bytes) {
            Ok(0) => return Ok(bytes),
            Ok(_) => {}
            Err(refusal) => return Err(refusal),
        }
    }
    Err(CollectRefusal::TooLong)
}

/// Reads once into that piece of memory, appends what came to the bytes, and answers how many came.
fn read_on<S: Source>(
    source: &mut S,
    piece: &mut [u8],
    bytes: &mut Vec<u8>,
) -> Result<usize, CollectRefusal>
    requires { 0 < length piece.old }
    ensures within { IfOk result (λ n. n ≤ length piece.old) }
    ensures count { IfOk result (λ n. vec_len bytes.new ≡ vec_len bytes.old + n) }
    ensures gathers { OnOk result (Gathers (S.left source.old) bytes.old.items (S.left source.new) bytes.new.items) }
    ensures end { IfOk result (λ n. n ≡ 0 → IfSome (S.left source.old) (λ left. left ≡ [])) }
    ensures reason { IsErrOf result CollectRefusal.TooLong → ⊥ }
    ensures fault { IsErrOf result CollectRefusal.Fault → RisesBy 1 (S.faults source.old) (S.faults source.new) }
    ensures calm { (IsErrOf result CollectRefusal.Fault → ⊥) → S.faults source.new ≡ S.faults source.old }
{
    match source.read(piece) {
        Ok(count) => {
            bytes.extend_from_slice(&piece[..count])?;
            Ok(count)
        }
        Err(_) => Err(CollectRefusal::Fault),
    }
}

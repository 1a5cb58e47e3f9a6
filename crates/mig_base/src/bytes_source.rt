ghost use Rattle.std.specs.Prelude.{◌≡◌, ◌≤◌, ◌↔◌, Some, Contains, IfOk, IsErr, OnErr, drop, length, min, take};
ghost use Rattle.mig_base.specs.Count.{HasCause};
ghost use Rattle.mig_base.specs.Memory.{next_number};
ghost use Rattle.mig_base.specs.Stream.{Takes};

use crate::listed::is_listed;
use crate::{Failed, Source};
use std::marker::Model;

/// A source over bytes in memory, which gives them in short reads and fails at the calls that it was told.
#[derive(Drop)]
pub struct BytesSource {
    bytes: Vec<u8>,
    at: usize,
    most: usize,
    fails: Vec<u64>,
    calls: u64,
    faults: u64,
}

impl Model for BytesSource {
    ghost use Rattle.std.specs.Prelude.{◌≤◌, drop, vec_len};
    ghost use Rattle.mig_base.specs.Memory.{Reading};

    ghost Value = { Reading };

    ghost view = { λ s. record { left = drop s.at s.bytes.items; most = s.most; fails = s.fails.items; calls = s.calls; faults = s.faults } };

    ghost invariant = { λ s. (s.at ≤ vec_len s.bytes) × (1 ≤ s.most) };
}

impl BytesSource {
    /// A source of these bytes. A read gives at most `most` of them, which is at least 1. The calls whose numbers,
    /// from 1, stand in `fails` fail and move nothing.
    pub fn make(bytes: Vec<u8>, most: usize, fails: Vec<u64>) -> BytesSource
        requires { 1 ≤ most }
        ensures left { result.left ≡ bytes.items }
        ensures most { result.most ≡ most }
        ensures fails { result.fails ≡ fails.items }
        ensures calls { result.calls ≡ 0 }
        ensures faults { result.faults ≡ 0 }
    {
        BytesSource {
            bytes,
            at: 0,
            most,
            fails,
            calls: 0,
            faults: 0,
        }
    }
}

impl Source for BytesSource {
    ghost left = { λ s. Some s.left };

    ghost faults = { λ s. s.faults };

    fn read(&mut self, buf: &mut [u8]) -> Result<usize, Failed>
        ensures within { IfOk result (λ n. n ≤ length buf.old) }
        ensures taken { IfOk result (λ n. Takes (Some self.old.left) buf.new n (Some self.new.left)) }
        ensures kept { OnErr result (self.new.left ≡ self.old.left) }
        ensures cause { HasCause self.old.faults self.new.faults result }

        // As much as fits is given, but at the listed calls.
        ensures count { IfOk result (λ n. n ≡ min (min (length self.old.left) (length buf.old)) self.old.most) }
        ensures failed { IsErr result ↔ Contains self.old.fails (next_number self.old.calls) }
        ensures rest { self.new ≡ record self.old {
          left = self.new.left;
          calls = next_number self.old.calls;
          faults = self.new.faults;
        } }
    {
        self.calls = self.calls.saturating_add(1);
        if is_listed(&self.fails, self.calls) {
            self.faults = self.faults.saturating_add(1);
            return Err(Failed);
        }
        let count = copy_front(&self.bytes[self.at..], buf, self.most);
        self.at += count;
        Ok(count)
    }
}

/// Copies as many bytes as both slices have, but at most `most`, and answers how many.
fn copy_front(from: &[u8], to: &mut [u8], most: usize) -> usize
    ensures count { result ≡ min (min (length from.now) (length to.old)) most }
    ensures same { take result to.new ≡ take result from.now }
{
    let count = from.len().min(to.len()).min(most);
    to[..count].copy_from_slice(&from[..count]);
    count
}

ghost use Rattle.std.specs.Prelude.{◌≡◌, ◌≤◌, ◌+◌, ◌*◌, [], drop, false, length, replicate, take, true};
ghost use Rattle.move_core.specs.State.{IsCopying, IsWrite, NoneOwed, NoneUnposted, owe_blocks as owe, put_blocks as put};
ghost use Rattle.move_core.specs.Covered.{IsShaped};
ghost use Rattle.move_core.specs.Does.{Does, Goes};
ghost use Rattle.move_core.specs.declared.phase.CorePhase.TheVariants.{Moving};
ghost use Rattle.move_core.specs.declared.event.CoreEvent.TheVariants.{Piece, Post, Copy, Take, Restart, Suspend, Resume, GiveUp};

use crate::lane_spans::LaneSpans;
use crate::state::Core;
use crate::{CoreEvent, CorePhase, NotNow};
use mig_base::Span;

impl Core {
    /// Does what the event says.
    ///
    /// # Errors
    ///
    /// `NotNow` exactly where the rules have no such step, and the core then stays as it was.
    pub fn step(&mut self, e: &CoreEvent) -> Result<(), NotNow>
        ensures does { Does self.old e.now result self.new }
        ensures goes { Goes self.old e.now result self.new }
    {
        let _blocks = self.blocks();
        self.apply(e)
    }

    /// How many blocks either side has.
    pub fn blocks(&self) -> usize
        ensures count { result ≡ length self.now.source }
        ensures shaped { IsShaped self.now }
    {
        self.source.len()
    }

    /// The blocks of the side that is left.
    pub fn source(&self) -> &[[u8; 512]]
        ensures { result.now ≡ self.now.source }
    {
        self.source.as_slice()
    }

    /// The blocks of the side to which they are copied.
    pub fn destination(&self) -> &[[u8; 512]]
        ensures { result.now ≡ self.now.destination }
    {
        self.destination.as_slice()
    }

    fn apply(&mut self, e: &CoreEvent) -> Result<(), NotNow>
        ensures { Does self.old e.now result self.new }
    {
        match e {
            CoreEvent::Piece { lane, span, bytes } => self.write(*lane, *span, bytes.as_slice()),
            CoreEvent::Post { lane } => self.post(*lane),
            CoreEvent::Copy { block } => self.copy(*block),
            CoreEvent::Take => self.take(),
            CoreEvent::Restart => self.restart(),
            CoreEvent::Suspend => self.suspend(),
            CoreEvent::Resume => self.resume(),
            CoreEvent::GiveUp => self.give_up(),
        }
    }

    fn write(&mut self, lane: u8, span: Span, bytes: &[u8]) -> Result<(), NotNow>
        ensures { Does self.old (Piece lane span bytes.now) result self.new }
    {
        let blocks = self.source.len() as u64;
        let inside = u64::from(span.first) + u64::from(span.count) <= blocks;
        if !(1..=8).contains(&lane) || !(1..=64).contains(&span.count) || !inside {
            return Err(NotNow);
        }
        if bytes.len() != 512 * span.count as usize {
            return Err(NotNow);
        }
        match self.phase {
            CorePhase::Moving => self.write_moving(lane, span, bytes),
            CorePhase::Suspended => Err(NotNow),
            CorePhase::Resumed => {
                put_blocks(&mut self.destination, span, bytes);
                Ok(())
            }
            CorePhase::GaveUp => {
                put_blocks(&mut self.source, span, bytes);
                Ok(())
            }
        }
    }

    /// Writes at the source while blocks are copied: the span is kept until it is posted.
    fn write_moving(&mut self, lane: u8, span: Span, bytes: &[u8]) -> Result<(), NotNow>
        requires is_write { IsWrite self.old lane span bytes.now }
        requires moving { self.old.phase ≡ Moving }
        ensures { Does self.old (Piece lane span bytes.now) result self.new }
    {
        let spans = &mut self.unposted[usize::from(lane) - 1];
        if spans.len() >= LaneSpans::MOST {
            return Err(NotNow);
        }
        spans.push(span);
        put_blocks(&mut self.source, span, bytes);
        Ok(())
    }

    fn post(&mut self, lane: u8) -> Result<(), NotNow>
        ensures { Does self.old (Post lane) result self.new }
    {
        if self.phase != CorePhase::Moving || !(1..=8).contains(&lane) {
            return Err(NotNow);
        }
        let spans = &mut self.unposted[usize::from(lane) - 1];
        if spans.len() == 0 {
            return Err(NotNow);
        }
        let span = spans.take_first();
        if self.mark || self.log.len() == self.cells as usize {
            self.mark = true;
        } else {
            self.log.push_reserved(span);
        }
        Ok(())
    }

    fn copy(&mut self, block: u32) -> Result<(), NotNow>
        ensures { Does self.old (Copy block) result self.new }
    {
        let b = block as usize;
        if !self.is_copying() || b >= self.owed.len() || !self.owed[b] {
            return Err(NotNow);
        }
        self.destination[b] = self.source[b];
        self.owed[b] = false;
        Ok(())
    }

    fn take(&mut self) -> Result<(), NotNow>
        ensures { Does self.old Take result self.new }
    {
        if !self.is_copying() || self.log.is_empty() {
            return Err(NotNow);
        }
        let span = self.log.remove(0);
        owe_blocks(&mut self.owed, span);
        Ok(())
    }

    fn restart(&mut self) -> Result<(), NotNow>
        ensures { Does self.old Restart result self.new }
    {
        if self.phase != CorePhase::Moving || !self.mark {
            return Err(NotNow);
        }
        fill(&mut self.owed, true);
        self.forget_spans();
        Ok(())
    }

    fn suspend(&mut self) -> Result<(), NotNow>
        ensures { Does self.old Suspend result self.new }
    {
        if self.phase != CorePhase::Moving || self.mark {
            return Err(NotNow);
        }
        if !none_unposted(&self.unposted) {
            return Err(NotNow);
        }
        self.phase = CorePhase::Suspended;
        Ok(())
    }

    fn resume(&mut self) -> Result<(), NotNow>
        ensures { Does self.old Resume result self.new }
    {
        if self.phase != CorePhase::Suspended || !self.log.is_empty() {
            return Err(NotNow);
        }
        if !none_owed(&self.owed) {
            return Err(NotNow);
        }
        self.phase = CorePhase::Resumed;
        Ok(())
    }

    fn give_up(&mut self) -> Result<(), NotNow>
        ensures { Does self.old GiveUp result self.new }
    {
        if !self.is_copying() {
            return Err(NotNow);
        }
        fill(&mut self.owed, false);
        self.forget_spans();
        self.phase = CorePhase::GaveUp;
        Ok(())
    }

    fn is_copying(&self) -> bool
        ensures yes { result ≡ true → IsCopying self.now.phase }
        ensures no { result ≡ false → IsCopying self.now.phase → ⊥ }
    {
        matches!(self.phase, CorePhase::Moving | CorePhase::Suspended)
    }

    /// Forgets all spans, and the mark.
    fn forget_spans(&mut self)
        ensures { self.new ≡ record self.old { log = []; unposted = replicate 8 []; mark = false } }
    {
        self.log.clear();
        clear_all(&mut self.unposted);
        self.mark = false;
    }
}

/// Writes the blocks of a span.
fn put_blocks(blocks: &mut Vec<[u8; 512]>, span: Span, bytes: &[u8])
    requires inside { span.first + span.count ≤ length blocks.old.items }
    requires long { length bytes.now ≡ 512 * span.count }
    ensures blocks { blocks.new.items ≡ put span.first span.count bytes.now blocks.old.items }
    ensures count { length blocks.new.items ≡ length blocks.old.items }
{
    for i in 0..span.count {
        let block = block_of(bytes, i);
        blocks[span.first as usize + i as usize].copy_from_slice(block);
    }
}

/// Block `i` of these bytes.
fn block_of(bytes: &[u8], i: u32) -> &[u8]
    requires { 512 * i + 512 ≤ length bytes.now }
    ensures value { result.now ≡ take 512 (drop (512 * i) bytes.now) }
    ensures long { length result.now ≡ 512 }
{
    let at = 512 * i as usize;
    &bytes[at..at + 512]
}

/// The blocks of a span are owed.
fn owe_blocks(owed: &mut Vec<bool>, span: Span)
    requires { span.first + span.count ≤ length owed.old.items }
    ensures owed { owed.new.items ≡ owe span.first span.count owed.old.items }
    ensures count { length owed.new.items ≡ length owed.old.items }
{
    for i in 0..span.count {
        owed[span.first as usize + i as usize] = true;
    }
}

/// All blocks are owed, or none is.
fn fill(owed: &mut Vec<bool>, value: bool)
    ensures { owed.new.items ≡ replicate (length owed.old.items) value }
{
    for i in 0..owed.len() {
        owed[i] = value;
    }
}

/// No lane has a span any more.
fn clear_all(unposted: &mut Vec<LaneSpans>)
    ensures { unposted.new.items ≡ replicate (length unposted.old.items) [] }
{
    for i in 0..unposted.len() {
        unposted[i].clear();
    }
}

/// Whether no block is owed.
fn none_owed(owed: &[bool]) -> bool
    ensures yes { result ≡ true → NoneOwed owed.now }
    ensures no { result ≡ false → NoneOwed owed.now → ⊥ }
{
    for i in 0..owed.len() {
        if owed[i] {
            return false;
        }
    }
    true
}

/// Whether no lane has a span that isn't in the log.
fn none_unposted(unposted: &[LaneSpans]) -> bool
    ensures yes { result ≡ true → NoneUnposted unposted.now }
    ensures no { result ≡ false → NoneUnposted unposted.now → ⊥ }
{
    for i in 0..unposted.len() {
        if unposted[i].len() != 0 {
            return false;
        }
    }
    true
}

// What a controller does at an admin command.
ghost use Rattle.std.specs.Prelude.{◌≡◌, ◌≤◌, ◌++◌, All, [], Option, drop, length, map, min, take};
ghost use Rattle.adm_values.specs.Command.{IsInRange};
ghost use Rattle.ctl_state.specs.declared.image.Image.{Image as TheImage};
ghost use Rattle.ctl_state.specs.Image.{IsImage, pairs_of};
ghost use Rattle.ctl_state.specs.Admin.{Answers, Creates, Deletes, Does, FitsBuffer, Gets, GoesOnWith, HasLength, IsKept, Logs, Resumes, Sets, Suspends, image_of, is_queue, with_images};

use crate::controller::Controller;
use crate::pair::Pair;
use adm_values::{AdminCmd, AdminCpl, What};
use ctl_state::{Image, PairState, Parts, Phase, Refusal};
use guest_ram::Ram;
use nvm_values::Status;

impl Controller {
    /// Does an admin command of host managed live migration: Suspend, Resume, Set and Get Controller State, Create and
    /// Delete of the data queue, or Log User Data Changes. `bytes` is its buffer, of the length that it names; where it
    /// names none, any length will do. No lane is between its `fetch_turn` and its `finish_turn`.
    ///
    /// The answer's status is Success, or tells why nothing was done: 1 c0 where the controller is suspended or takes a
    /// state, 1 c1 where it isn't suspended, 1 c2 where there is no such queue, 1 c3 where a change found no free cell,
    /// 1 c4 where no image goes on with a byte, whose place dword 0 tells, 1 c5 where a part doesn't follow or the image
    /// isn't whole, 0 01 for an unknown opcode, and 0 02 for another command that isn't one, a part past the image's end
    /// and an offset past it. Memory isn't tracked yet: such commands get 0 01.
    pub fn admin(&mut self, cmd: &[u8; 64], ram: &mut Ram, bytes: &mut [u8]) -> AdminCpl
        requires between { All (λ p. p.commands ≡ []) self.old.pairs }
        requires buffer { FitsBuffer cmd.now (length bytes.old) }
        ensures answers { Answers cmd.now self.old bytes.old result self.new bytes.new }
        ensures kept { IsKept self.old self.new }
        ensures memory { ram.new ≡ ram.old }
    {
        let _memory = ram;
        let command = match AdminCmd::from_bytes(cmd) {
            Ok(command) => command,
            Err(refusal) => return Refusal::of_bytes(refusal).completion(),
        };
        match self.obey(command.what, bytes) {
            Ok(dw0) => AdminCpl {
                status: Status::SUCCESS,
                dw0,
            },
            Err(refusal) => refusal.completion(),
        }
    }

    /// Does a command, and answers dword 0.
    fn obey(&mut self, what: What, bytes: &mut [u8]) -> Result<u32, Refusal>
        requires between { All (λ p. p.commands ≡ []) self.old.pairs }
        requires buffer { HasLength what (length bytes.old) }
        requires numbers { IsInRange what }
        ensures { Does what self.old bytes.old result self.new bytes.new }
    {
        match what {
            What::LogUserData { start, queue } => self.log_user_data(start, queue),
            What::TrackMemory { .. } | What::MemoryChanges { .. } => Err(Refusal::InvalidOpcode),
            What::Suspend => self.suspend(),
            What::Resume => self.resume(),
            What::SetState { offset, .. } => self.set_state(offset, bytes),
            What::GetState { offset, .. } => self.get_state(offset, bytes),
            What::CreateQueue { cells } => self.create_queue(cells),
            What::DeleteQueue { queue } => self.delete_queue(queue),
        }
    }

    fn suspend(&mut self) -> Result<u32, Refusal>
        ensures { Suspends self.old.phase self.old result self.new }
    {
        if self.phase != Phase::Running {
            return Err(Refusal::IsSuspended);
        }
        self.phase = Phase::Suspended;
        self.parts = Parts::new(self.pairs.len() as u8);
        Ok(0)
    }

    fn resume(&mut self) -> Result<u32, Refusal>
        requires { All (λ p. p.commands ≡ []) self.old.pairs }
        ensures { Resumes self.old.phase self.old result self.new }
    {
        match self.phase {
            Phase::Running => Err(Refusal::NotSuspended),
            Phase::Suspended => {
                self.phase = Phase::Running;
                Ok(0)
            }
            Phase::Loading => self.go_on(),
        }
    }

    /// Goes on with the state that was fed.
    fn go_on(&mut self) -> Result<u32, Refusal>
        requires { All (λ p. p.commands ≡ []) self.old.pairs }
        ensures { (image : Option TheImage) × GoesOnWith self.old image result self.new }
    {
        let Some(image) = self.parts.whole() else {
            return Err(Refusal::BadSequence);
        };
        load_all(&mut self.pairs, &image);
        self.phase = Phase::Running;
        Ok(0)
    }

    fn set_state(&mut self, offset: u32, part: &[u8]) -> Result<u32, Refusal>
        ensures { Sets self.old.phase offset part.now self.old result self.new }
    {
        if self.phase == Phase::Running {
            return Err(Refusal::NotSuspended);
        }
        match self.parts.feed(offset, part) {
            Ok(()) => {
                self.phase = Phase::Loading;
                Ok(0)
            }
            Err(refusal) => Err(Refusal::of_part(refusal)),
        }
    }

    fn get_state(&self, offset: u32, bytes: &mut [u8]) -> Result<u32, Refusal>
        requires { length bytes.old ≤ 4096 }
        ensures { Gets self.now.phase offset self.now bytes.old result bytes.new }
    {
        match self.phase {
            Phase::Running => return Err(Refusal::NotSuspended),
            Phase::Suspended => {}
            Phase::Loading => return Err(Refusal::BadSequence),
        }
        let mut image = [0; 264];
        let size = image_of(self.pairs.as_slice()).encode(&mut image) as usize;
        let from = offset as usize;
        if from > size {
            return Err(Refusal::InvalidField);
        }
        Ok(copy_front(&image[from..size], bytes))
    }

    fn create_queue(&mut self, cells: u32) -> Result<u32, Refusal>
        requires { 2 ≤ cells }
        ensures { Creates cells self.old result self.new }
    {
        if cells != self.queue.size() || !self.queue.create() {
            return Err(Refusal::BadDataQueue);
        }
        Ok(0)
    }

    /// Whether that is the number of the live queue.
    fn is_queue(&self, number: u16) -> bool
        ensures { result ≡ is_queue number self.now }
    {
        self.queue.live() && number == 1
    }

    fn delete_queue(&mut self, number: u16) -> Result<u32, Refusal>
        ensures { Deletes number self.old result self.new }
    {
        if !self.is_queue(number) {
            return Err(Refusal::BadDataQueue);
        }
        let _was_live = self.queue.delete();
        self.tracker.set_logging(false);
        Ok(0)
    }

    fn log_user_data(&mut self, start: bool, number: u16) -> Result<u32, Refusal>
        ensures { Logs start number self.old result self.new }
    {
        if start {
            if !self.is_queue(number) {
                return Err(Refusal::BadDataQueue);
            }
            if self.queue.marked() {
                return Err(Refusal::DataQueueFull);
            }
        }
        self.tracker.set_logging(start);
        Ok(0)
    }
}

/// All pairs go on with the rings of an image of as many.
fn load_all(pairs: &mut Vec<Pair>, image: &Image)
    requires image { IsImage (length pairs.old.items) image.now }
    requires between { All (λ p. p.commands ≡ []) pairs.old.items }
    ensures { pairs.new.items ≡ with_images (pairs_of image.now) pairs.old.items }
{
    'pairs: for place in 0..pairs.len() {
        pairs[place].load(&image.pairs[place]);
    }
}

/// The image of pairs' rings.
fn image_of(pairs: &[Pair]) -> Image
    requires { length pairs.now ≤ 8 }
    ensures image { IsImage (length pairs.now) result }
    ensures rings { pairs_of result ≡ map image_of pairs.now }
{
    let mut images = [PairState::NONE; 8];
    'pairs: for place in 0..pairs.len() {
        images[place] = pairs[place].image();
    }
    Image {
        pairs: images,
        used: pairs.len() as u8,
    }
}

/// Copies as many bytes as there are, and as there is room for, and answers how many.
fn copy_front(from: &[u8], to: &mut [u8]) -> u32
    requires { length to.old ≤ 4096 }
    ensures count { result ≡ min (length to.old) (length from.now) }
    ensures bytes { to.new ≡ take result from.now ++ drop result to.old }
{
    let count = to.len().min(from.len());
    to[..count].copy_from_slice(&from[..count]);
    count as u32
}

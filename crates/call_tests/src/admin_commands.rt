//! A controller's state goes to another controller by admin commands alone, and its change queue.

ghost use Rattle.std.specs.Prelude.{◌≡◌, ◌≤◌, [], All, IfOk, length};
ghost use Rattle.adm_values.specs.Command.{IsInRange};
ghost use Rattle.ctl_state.specs.Admin.{HasLength};

use adm_values::{AdminCmd, What};
use controller::{Controller, PairSet, Phase};
use guest_ram::Ram;
use nvm_values::Status;
use std::alloc::Global;
use std::test::Fail;

/// The image of a controller of one queue pair: rings of 8 places at the first two pages of lane 1's window; 7 entries were
/// fetched of 7; of 15 completions, the last in the second pass of the ring, 10 are reaped.
const IMAGE: [u8; 40] = [
    1, 0, 1, 0, 40, 0, 0, 0, //
    0, 0, 0, 1, 0, 0, 0, 0, 0, 16, 0, 1, 0, 0, 0, 0, //
    7, 0, 7, 0, 7, 0, 7, 0, 2, 0, 7, 0, 0, 0, 0, 0,
];

/// A controller of one pair that waits for a state.
fn waiting(alloc: Global) -> Result<Controller, Fail>
    ensures { IfOk result (λ c. All (λ p. p.commands ≡ []) c.pairs) }
{
    let set = PairSet {
        sq: 8,
        cq: 8,
        pages: 2,
    };
    Ok(
        Controller::blank(alloc, &[set], 2, 3)
            .ok()
            .ok_or("controller")?,
    )
}

/// What a command is answered.
fn send(controller: &mut Controller, what: What, bytes: &mut [u8]) -> (Status, u32)
    requires command { IsInRange what × HasLength what (length bytes.old) }
    requires between { All (λ p. p.commands ≡ []) controller.old.pairs }
    ensures { All (λ p. p.commands ≡ []) controller.new.pairs }
{
    let command = AdminCmd { cid: 1, what };
    let answer = controller.admin(&command.to_bytes(), &mut Ram::empty(), bytes);
    (answer.status, answer.dw0)
}

fn set(controller: &mut Controller, offset: u32, part: &[u8]) -> (Status, u32)
    requires few { (1 ≤ length part.now) × (length part.now ≤ 41) }
    requires between { All (λ p. p.commands ≡ []) controller.old.pairs }
    ensures { All (λ p. p.commands ≡ []) controller.new.pairs }
{
    let mut bytes = [0; 41];
    let bytes = &mut bytes[..part.len()];
    bytes.copy_from_slice(part);
    let length = part.len() as u32;
    send(controller, What::SetState { offset, length }, bytes)
}

fn get(controller: &mut Controller, offset: u32) -> ((Status, u32), [u8; 64])
    requires { All (λ p. p.commands ≡ []) controller.old.pairs }
    ensures { All (λ p. p.commands ≡ []) controller.new.pairs }
{
    let mut bytes = [0xff; 64];
    let length = 64;
    let answer = send(controller, What::GetState { offset, length }, &mut bytes);
    (answer, bytes)
}

fn ask(controller: &mut Controller, what: What) -> (Status, u32)
    requires what { IsInRange what × HasLength what 0 }
    requires between { All (λ p. p.commands ≡ []) controller.old.pairs }
    ensures { All (λ p. p.commands ≡ []) controller.new.pairs }
{
    send(controller, what, &mut [])
}

/// A refusal of type Command Specific.
fn specific(sc: u8, dw0: u32) -> (Status, u32) {
    (Status::new(1, sc), dw0)
}

const DONE: (Status, u32) = (Status::SUCCESS, 0);

#[test]
fn a_state_crosses(rt: HostRuntime) -> Result<(), Fail> {
    let controller = &mut waiting(rt.alloc())?;
    assert!(rt; ask(controller, What::Resume) == specific(0xc5, 0));
    assert!(rt; set(controller, 5, &IMAGE[5..6]) == specific(0xc5, 0));
    assert!(rt; set(controller, 0, &[1; 41]) == (Status::INVALID_FIELD, 0));
    assert!(rt; set(controller, 0, &IMAGE[..39]) == DONE);
    assert!(rt; set(controller, 39, &[1]) == specific(0xc4, 39));
    assert!(rt; ask(controller, What::Resume) == specific(0xc5, 0));
    assert!(rt; controller.phase() == Phase::Loading);
    assert!(rt; set(controller, 39, &[0]) == DONE);
    assert!(rt; ask(controller, What::Resume) == DONE);
    assert!(rt; set(controller, 0, &IMAGE[..1]) == specific(0xc1, 0));
    assert!(rt; get(controller, 0).0 == specific(0xc1, 0));
    assert!(rt; ask(controller, What::Suspend) == DONE);
    assert!(rt; ask(controller, What::Suspend) == specific(0xc0, 0));
    let mut state = [0xff; 64];
    state[..40].copy_from_slice(&IMAGE);
    assert!(rt; get(controller, 0) == ((Status::SUCCESS, 40), state));
    let (answer, bytes) = get(controller, 36);
    assert!(rt; answer == (Status::SUCCESS, 4) && bytes[4] == 0xff);
    assert!(rt; get(controller, 41).0 == (Status::INVALID_FIELD, 0));
    Ok(())
}

#[test]
fn a_change_queue(rt: HostRuntime) -> Result<(), Fail> {
    let controller = &mut waiting(rt.alloc())?;
    let (start, queue) = (true, 1);
    let log = What::LogUserData { start, queue };
    let bad = specific(0xc2, 0);
    assert!(rt; ask(controller, log) == bad);
    assert!(rt; ask(controller, What::CreateQueue { cells: 3 }) == bad);
    assert!(rt; ask(controller, What::CreateQueue { cells: 2 }) == DONE);
    assert!(rt; ask(controller, What::CreateQueue { cells: 2 }) == bad);
    assert!(rt; ask(controller, log) == DONE);
    assert!(rt; ask(controller, What::DeleteQueue { queue: 2 }) == bad);
    assert!(rt; ask(controller, What::DeleteQueue { queue }) == DONE);
    assert!(rt; ask(controller, log) == bad);
    assert!(rt; ask(controller, What::TrackMemory { start }) == (Status::INVALID_OPCODE, 0));
    Ok(())
}

/// A controller of eight pairs that waits for a state.
fn eight_waiting(alloc: Global) -> Result<Controller, Fail>
    ensures { IfOk result (λ c. All (λ p. p.commands ≡ []) c.pairs) }
{
    let set = PairSet {
        sq: 8,
        cq: 8,
        pages: 2,
    };
    Ok(
        Controller::blank(alloc, &[set; 8], 2, 3)
            .ok()
            .ok_or("controller")?,
    )
}

/// The image of eight such pairs, of which no two have the same head of the submission ring.
fn image_of_eight() -> [u8; 264] {
    let mut image = [0; 264];
    image[..8].copy_from_slice(&[1, 0, 8, 0, 8, 1, 0, 0]);
    for lane in 0..8usize {
        let at = 8 + 32 * lane;
        image[at..at + 32].copy_from_slice(&IMAGE[8..]);
        image[at + 3] = lane as u8 + 1;
        image[at + 11] = lane as u8 + 1;
        image[at + 18] = lane as u8;
    }
    image
}

/// Hands a state over in parts of so many bytes.
fn hand_over(from: &mut Controller, to: &mut Controller, length: u32)
    requires length { (1 ≤ length) × (length ≤ 264) }
    requires from { All (λ p. p.commands ≡ []) from.old.pairs }
    requires to { All (λ p. p.commands ≡ []) to.old.pairs }
    ensures from { All (λ p. p.commands ≡ []) from.new.pairs }
    ensures to { All (λ p. p.commands ≡ []) to.new.pairs }
{
    let mut bytes = [0; 264];
    'parts: for part in 0..264u32 {
        let offset = part * length;
        let get = What::GetState { offset, length };
        let count = send(from, get, &mut bytes[..length as usize]).1.min(length);
        if count == 0 {
            return;
        }
        let set = What::SetState {
            offset,
            length: count,
        };
        let _taken = send(to, set, &mut bytes[..count as usize]);
    }
}

/// A state of 264 bytes crosses in parts of each length from 1 to 264.
#[test]
fn a_state_crosses_in_parts_of_any_length(rt: HostRuntime) -> Result<(), Fail> {
    let image = image_of_eight();
    for length in 1..265u32 {
        let from = &mut eight_waiting(rt.alloc())?;
        let to = &mut eight_waiting(rt.alloc())?;
        let mut bytes = image;
        let set = What::SetState {
            offset: 0,
            length: 264,
        };
        assert!(rt; send(from, set, &mut bytes) == DONE);
        assert!(rt; ask(from, What::Resume) == DONE && ask(from, What::Suspend) == DONE);
        hand_over(from, to, length);
        assert!(rt; ask(to, What::Resume) == DONE && ask(to, What::Suspend) == DONE);
        let mut copy = [0; 264];
        let get = What::GetState {
            offset: 0,
            length: 264,
        };
        assert!(rt; send(to, get, &mut copy) == (Status::SUCCESS, 264) && copy == image);
    }
    Ok(())
}

// The parts of a cutover.
ghost use Rattle.std.specs.Prelude.{◌≡◌, ◌+◌, ◌*◌, ◌^◌, ◌<◌, ◌≤◌, ◌∷◌, [], length, take};
ghost use Rattle.adm_values.specs.Command.{IsInRange};
ghost use Rattle.ctl_state.specs.Admin.{HasLength, state_bytes};
ghost use Rattle.ctl_state.specs.declared.phase.Phase.TheVariants.{Running};
ghost use Rattle.ctl_state.specs.Parts.{kept};
ghost use Rattle.manager.specs.Asks.{state_asks};
ghost use Rattle.manager.specs.Move.{IsQuiet};
ghost use Rattle.manager.specs.Owed.{places_of};
ghost use Rattle.manager.specs.Parts.{Begins, DoesCopies, DoesPages, DoesResume, DoesSuspend, GetsPart, HandsOver, HandsPart, SetsPart, Sends, part_length, size_of};
ghost use Rattle.manager.specs.Port.{side_of};

use crate::manager::MediumFault;
use crate::owed::Owed;
use crate::port::Port;
use crate::side::{CopyAnswer, Side};
use adm_values::{AdminCmd, AdminCpl, What};

/// How many bytes of the state a part has: no image has a multiple of it.
const PART: u32 = 64;

/// Suspends the source, after turn `t`.
pub(crate) fn suspend<P: Port>(t: u64, port: &mut P)
    requires turn { t < 2 ^ 62 }
    requires left { 2 ≤ (P.state port.old).left }
    requires quiet { IsQuiet (P.state port.old).from }
    requires running { (P.state port.old).from.controller.phase ≡ Running }
    ensures { DoesSuspend P.moves t (P.state port.old) (P.state port.new) }
{
    let _done = send(Side::From, What::Suspend, &mut [], port);
    port.mark(3 * t + 1);
}

/// Copies every block that is owed, ascending, until a copy fails.
pub(crate) fn copy_blocks<P: Port>(owed: &Owed, port: &mut P) -> Result<(), MediumFault>
    requires size { (length owed.now ≡ (P.state port.old).count) × (length owed.now ≤ 131072) }
    requires left { length owed.now ≤ (P.state port.old).left }
    ensures { DoesCopies P.moves (places_of owed.now) result (P.state port.old) (P.state port.new) }
{
    for b in 0..owed.size() {
        if owed.contains(b) {
            copy_block(b, port)?;
        }
    }
    Ok(())
}

fn copy_block<P: Port>(b: u32, port: &mut P) -> Result<(), MediumFault>
    requires left { 1 ≤ (P.state port.old).left }
    requires there { b < (P.state port.old).count }
    ensures { DoesCopies P.moves (b ∷ []) result (P.state port.old) (P.state port.new) }
{
    match port.copy(b) {
        CopyAnswer::Copied => Ok(()),
        // Between two whole sides no shelf is another's.
        CopyAnswer::Busy { .. } => Ok(()),
        CopyAnswer::Fault { side } => Err(MediumFault { side }),
    }
}

/// Copies every page that is owed, ascending.
pub(crate) fn copy_pages<P: Port>(owed: &Owed, port: &mut P)
    requires size { length owed.now ≤ 131072 }
    requires from { length (P.state port.old).from.pages ≡ length owed.now }
    requires to { length (P.state port.old).to.pages ≡ length owed.now }
    requires left { length owed.now ≤ (P.state port.old).left }
    ensures { DoesPages P.moves (places_of owed.now) (P.state port.old) (P.state port.new) }
{
    for page in 0..owed.size() {
        if owed.contains(page) {
            port.copy_page(page);
        }
    }
}

/// Hands the state of the source over to the destination, part by part.
pub(crate) fn hand_over<P: Port>(port: &mut P)
    requires left { 10 ≤ (P.state port.old).left }
    requires begins { Begins (P.state port.old) }
    ensures { HandsOver P.moves (state_asks (size_of (P.state port.old).from.controller)) (P.state port.old) (P.state port.new) }
{
    let mut whole = 0u32;
    'parts: while hand_part(whole, port) == PART {
        whole += 1;
    }
}

/// Hands part `i` over, behind those before it, and answers how many bytes it has.
fn hand_part<P: Port>(i: u32, port: &mut P) -> u32
    requires left { 2 ≤ (P.state port.old).left }
    requires begins { Begins (P.state port.old) }
    requires there { 64 * i < size_of (P.state port.old).from.controller }
    requires follows { kept (64 * i) (P.state port.old).to.controller.fed.bytes ≡ take (64 * i) (state_bytes (P.state port.old).from.controller) }
    ensures count { result ≡ part_length i (P.state port.old).from.controller }
    ensures handed { HandsPart P.moves i (P.state port.old) (P.state port.new) }
{
    let mut part = [0; PART as usize];
    let length = get_part(PART * i, &mut part, port);
    set_part(PART * i, &mut part[..length as usize], port);
    length
}

fn get_part<P: Port>(offset: u32, part: &mut [u8; 64], port: &mut P) -> u32
    requires left { 1 ≤ (P.state port.old).left }
    requires begins { Begins (P.state port.old) }
    requires there { offset ≤ size_of (P.state port.old).from.controller }
    ensures { GetsPart P.moves offset part.new result (P.state port.old) (P.state port.new) }
{
    let get = What::GetState {
        offset,
        length: PART,
    };
    send(Side::From, get, part, port).dw0
}

fn set_part<P: Port>(offset: u32, part: &mut [u8], port: &mut P)
    requires left { 1 ≤ (P.state port.old).left }
    requires quiet { IsQuiet (P.state port.old).to }
    requires length { (1 ≤ length part.old) × (length part.old ≤ 64) }
    ensures { SetsPart P.moves offset part.old (P.state port.old) (P.state port.new) }
{
    let set = What::SetState {
        offset,
        length: part.len() as u32,
    };
    let _fed = send(Side::To, set, part, port);
}

/// Resumes a side, after turn `t`.
pub(crate) fn resume<P: Port>(side: Side, t: u64, port: &mut P)
    requires turn { t < 2 ^ 62 }
    requires left { 2 ≤ (P.state port.old).left }
    requires quiet { IsQuiet (side_of side (P.state port.old)) }
    ensures { DoesResume P.moves side t (P.state port.old) (P.state port.new) }
{
    let _done = send(side, What::Resume, &mut [], port);
    port.mark(3 * t + 2);
}

/// Sends a command, the only one at that time.
pub(crate) fn send<P: Port>(side: Side, what: What, bytes: &mut [u8], port: &mut P) -> AdminCpl
    requires left { 1 ≤ (P.state port.old).left }
    requires quiet { IsQuiet (side_of side (P.state port.old)) }
    requires range { IsInRange what }
    requires buffer { HasLength what (length bytes.old) }
    ensures { Sends P.moves side what bytes.old result bytes.new (P.state port.old) (P.state port.new) }
{
    port.admin(side, &AdminCmd { cid: 0, what }, bytes)
}

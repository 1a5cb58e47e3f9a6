// The tests of an entry that need no page.
ghost use Rattle.std.specs.Prelude.{◌≡◌};
ghost use Rattle.nvm_model.specs.Check.{has_attributes, is_busy, is_unknown, is_flush, has_other_namespace, is_too_long, is_out_of_range};
ghost use Rattle.nvm_cmd.specs.Check.{early_verdict};

use nvm_values::{Op, Sqe, Status};

fn has_attributes(e: &Sqe) -> bool
    ensures { result ≡ has_attributes e.now }
{
    e.fuse() != 0 || e.psdt() != 0
}

fn is_busy(cid: u16, busy: &[u16]) -> bool
    ensures { result ≡ is_busy cid busy.now }
{
    busy.contains(&cid)
}

fn is_unknown(e: &Sqe) -> bool
    ensures { result ≡ is_unknown e.now }
{
    Op::of(e.opcode).is_none()
}

fn is_flush(e: &Sqe) -> bool
    ensures { result ≡ is_flush e.now }
{
    e.opcode == 0x00
}

fn has_other_namespace(e: &Sqe) -> bool
    ensures { result ≡ has_other_namespace e.now }
{
    e.nsid != 1 && !(is_flush(e) && e.nsid == 0xffff_ffff)
}

fn is_too_long(e: &Sqe) -> bool
    ensures { result ≡ is_too_long e.now }
{
    e.count() > 64
}

fn is_out_of_range(blocks: u32, e: &Sqe) -> bool
    ensures { result ≡ is_out_of_range blocks e.now }
{
    match e.slba().checked_add(u64::from(e.count())) {
        Some(end) => end > u64::from(blocks),
        None => true,
    }
}

/// The status of the first test that holds, if one does.
#[tactic(auto, unfolding(crate::specs::Check::early_verdict))]
pub(crate) fn decide_early(blocks: u32, busy: &[u16], e: &Sqe) -> Option<Status>
    ensures { result ≡ early_verdict blocks busy.now e.now }
{
    if has_attributes(e) {
        Some(Status::INVALID_FIELD)
    } else if is_busy(e.cid, busy) {
        Some(Status::ID_CONFLICT)
    } else if is_unknown(e) {
        Some(Status::INVALID_OPCODE)
    } else if has_other_namespace(e) {
        Some(Status::INVALID_NAMESPACE)
    } else if is_flush(e) {
        Some(Status::SUCCESS)
    } else if is_too_long(e) {
        Some(Status::INVALID_FIELD)
    } else if is_out_of_range(blocks, e) {
        Some(Status::OUT_OF_RANGE)
    } else {
        None
    }
}

use crate::make;
use nvm_model::Act;
use nvm_values::Op;
use std::test::Fail;

/// What `tests/made 1` prints behind the head: so many acts, these in front, and these last.
#[test]
fn a_script_is_made(rt: HostRuntime) -> Result<(), Fail> {
    let script = make(rt.alloc(), 1)?;
    let acts = script.acts.list();
    assert!(rt; acts.len() == 4483);
    let fill = Act::Fill { page: 20, byte: 45 };
    assert!(rt; acts[0] == (1, fill));
    let compare = Act::Submit {
        cid: 1,
        op: Op::Compare,
        slba: 25488,
        count: 13,
        p1: Some(22),
        p2: Some(23),
    };
    assert!(rt; acts[2] == (2, compare));
    assert!(rt; acts[4482] == (4, Act::Wait));
    Ok(())
}

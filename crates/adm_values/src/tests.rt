ghost use Rattle.std.specs.Prelude.{◌≡◌, Ok};
ghost use Rattle.adm_values.specs.Command.{IsCommand};

use super::*;

/// Set Controller State, Migration Send with selector 2: byte 7 of the image on, 40 bytes; identifier 0x1234.
const SET: [u8; 64] = [
    0x41, 0x00, 0x34, 0x12, 0x00, 0x00, 0x00, 0x00, 0x00, 0x00, 0x00, 0x00, 0x00, 0x00, 0x00, 0x00,
    0x00, 0x00, 0x00, 0x00, 0x00, 0x00, 0x00, 0x00, 0x00, 0x00, 0x00, 0x00, 0x00, 0x00, 0x00, 0x00,
    0x00, 0x00, 0x00, 0x00, 0x00, 0x00, 0x00, 0x00, 0x02, 0x00, 0x00, 0x00, 0x07, 0x00, 0x00, 0x00,
    0x28, 0x00, 0x00, 0x00, 0x00, 0x00, 0x00, 0x00, 0x00, 0x00, 0x00, 0x00, 0x00, 0x00, 0x00, 0x00,
];

/// Places of a command that is `SET` but for one byte, and what is told of it.
const WRONG: [(usize, u8, AdminRefusal); 9] = [
    (0, 0x40, AdminRefusal::BadOpcode),
    (40, 3, AdminRefusal::BadSelect),
    (1, 1, AdminRefusal::BadField { place: 1 }),
    (39, 1, AdminRefusal::BadField { place: 39 }),
    (43, 1, AdminRefusal::BadField { place: 43 }),
    (48, 0, AdminRefusal::BadField { place: 49 }),
    (49, 0x10, AdminRefusal::BadField { place: 49 }),
    (51, 1, AdminRefusal::BadField { place: 51 }),
    (63, 1, AdminRefusal::BadField { place: 63 }),
];

#[test]
fn a_command_and_its_bytes(rt: HostRuntime) {
    let command = AdminCmd {
        cid: 0x1234,
        what: What::SetState {
            offset: 7,
            length: 40,
        },
    };
    assert!(rt; command.to_bytes() == SET);
    assert!(rt; AdminCmd::from_bytes(&SET) == Ok(command) && received(&command) == Ok(command));
}

#[test]
fn bytes_that_are_no_command(rt: HostRuntime) {
    for (place, byte, refusal) in WRONG {
        let mut bytes = SET;
        if place < 64 {
            bytes[place] = byte;
        }
        assert!(rt; AdminCmd::from_bytes(&bytes) == Err(refusal), "at {place}");
    }
}

/// A queue of no cell is refused at the byte behind which only 65,536 goes on, and one of one cell a byte before.
#[test]
fn queues_of_no_cell_and_of_one(rt: HostRuntime) {
    let mut bytes = [0; 64];
    bytes[0] = 0x45;
    let none = AdminCmd::from_bytes(&bytes);
    assert!(rt; none == Err(AdminRefusal::BadField { place: 46 }));
    bytes[44] = 1;
    let one = AdminCmd::from_bytes(&bytes);
    assert!(rt; one == Err(AdminRefusal::BadField { place: 45 }));
    bytes[44] = 2;
    let two = AdminCmd::from_bytes(&bytes).map(|c| c.what);
    assert!(rt; two == Ok(What::CreateQueue { cells: 2 }));
}

/// Whatever command is sent is received.
fn received(c: &AdminCmd) -> Result<AdminCmd, AdminRefusal>
    requires { IsCommand c.now }
    ensures { result ≡ Ok c.now }
{
    AdminCmd::from_bytes(&c.to_bytes())
}

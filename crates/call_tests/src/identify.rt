//! Identify data and their bytes.

use nvm_identify::{IdController, IdNamespace, Length, own_controller, own_namespace};

/// A value each of whose fields differs from the product's, with numbers of several bytes.
const OTHER: IdController = IdController {
    vid: 0x1234,
    sn: *b"ABCDEFGHIJKLMNOPQRST",
    mn: *b"abcdefghijklmnopqrstuvwxyz0123456789ABCD",
    fr: *b"stuvwxyz",
    mdts: 5,
    cntlid: 0x5678,
    sqes: 0x76,
    cqes: 0x54,
    nn: 0x9abc_def0,
};

/// The product's own are read back. Which bytes they are is what the cases of `show` tell, by their digests.
#[test]
fn the_own_are_read_back(rt: HostRuntime) {
    let mut bytes = [0xff; 4096];
    let own = own_controller();
    own.to_bytes(&mut bytes);
    assert!(rt; IdController::from_bytes(&bytes) == Ok(own));
    let own = own_namespace(32);
    own.to_bytes(&mut bytes);
    assert!(rt; IdNamespace::from_bytes(&bytes) == Ok(own));
}

#[test]
fn another_controller(rt: HostRuntime) {
    let mut bytes = [0xff; 4096];
    OTHER.to_bytes(&mut bytes);
    assert!(rt; (bytes[0], bytes[1]) == (0x34, 0x12));
    assert!(rt; (bytes[4], bytes[23]) == (b'A', b'T'));
    assert!(rt; (bytes[24], bytes[63]) == (b'a', b'D'));
    assert!(rt; (bytes[64], bytes[71]) == (b's', b'z'));
    assert!(rt; (bytes[77], bytes[78], bytes[79]) == (5, 0x78, 0x56));
    assert!(rt; (bytes[512], bytes[513]) == (0x76, 0x54));
    assert!(rt; (bytes[516], bytes[519]) == (0xf0, 0x9a));
    assert!(rt; IdController::from_bytes(&bytes) == Ok(OTHER));
}

#[test]
fn other_lengths(rt: HostRuntime) {
    let bytes = [0u8; 4097];
    for got in [0, 4095, 4097] {
        assert!(rt; IdController::from_bytes(&bytes[..got]) == Err(Length { got }));
        assert!(rt; IdNamespace::from_bytes(&bytes[..got]) == Err(Length { got }));
    }
}

#[test]
fn bytes_of_no_field(rt: HostRuntime) {
    let mut bytes = [0u8; 4096];
    OTHER.to_bytes(&mut bytes);
    for at in [2, 3, 72, 76, 80, 511, 514, 515, 520, 4095] {
        bytes[at] = 0xff;
    }
    assert!(rt; IdController::from_bytes(&bytes) == Ok(OTHER));
    let own = own_namespace(1_048_576);
    own.to_bytes(&mut bytes);
    for at in [24, 27, 128, 129, 131, 4095] {
        bytes[at] = 0xff;
    }
    assert!(rt; IdNamespace::from_bytes(&bytes) == Ok(own));
}

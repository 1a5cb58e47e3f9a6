//! Queue entries, their bytes and their statuses.

use nvm_values::{Cqe, Op, Sqe, Status};

/// A Write of block 3 of namespace 1 from the page at 0x1002000, by identifier 1.
const WRITE: [u8; 64] = [
    0x01, 0x00, 0x01, 0x00, 0x01, 0x00, 0x00, 0x00, 0x00, 0x00, 0x00, 0x00, 0x00, 0x00, 0x00, 0x00,
    0x00, 0x00, 0x00, 0x00, 0x00, 0x00, 0x00, 0x00, 0x00, 0x20, 0x00, 0x01, 0x00, 0x00, 0x00, 0x00,
    0x00, 0x00, 0x00, 0x00, 0x00, 0x00, 0x00, 0x00, 0x03, 0x00, 0x00, 0x00, 0x00, 0x00, 0x00, 0x00,
    0x00, 0x00, 0x00, 0x00, 0x00, 0x00, 0x00, 0x00, 0x00, 0x00, 0x00, 0x00, 0x00, 0x00, 0x00, 0x00,
];

/// The opcodes of the standard's commands that are served.
const SERVED: [(u8, Op); 6] = [
    (0x00, Op::Flush),
    (0x01, Op::Write),
    (0x02, Op::Read),
    (0x05, Op::Compare),
    (0x08, Op::WriteZeroes),
    (0x0c, Op::Verify),
];

/// Last words of completions, with what they say: phase, status type, status code, retry delay, More, Do Not Retry.
const WORDS: [(u16, bool, u8, u8, u8, bool, bool); 14] = [
    (0x0000, false, 0, 0x00, 0, false, false),
    (0x0001, true, 0, 0x00, 0, false, false),
    (0x0002, false, 0, 0x01, 0, false, false),
    (0x0100, false, 0, 0x80, 0, false, false),
    (0x01fe, false, 0, 0xff, 0, false, false),
    (0x0200, false, 1, 0x00, 0, false, false),
    (0x0800, false, 4, 0x00, 0, false, false),
    (0x0e00, false, 7, 0x00, 0, false, false),
    (0x1000, false, 0, 0x00, 1, false, false),
    (0x2000, false, 0, 0x00, 2, false, false),
    (0x3000, false, 0, 0x00, 3, false, false),
    (0x4000, false, 0, 0x00, 0, true, false),
    (0x8000, false, 0, 0x00, 0, false, true),
    (0xffff, true, 7, 0xff, 3, true, true),
];

/// The completion of that Write, the first of its queue: head 1, queue 1, identifier 1, phase tag 1, success.
const WRITTEN: [u8; 16] = [0, 0, 0, 0, 0, 0, 0, 0, 1, 0, 1, 0, 1, 0, 1, 0];

#[test]
fn a_write_and_its_completion(rt: HostRuntime) {
    let mut completion = Cqe::from_bytes(&WRITTEN);
    assert!(rt; (completion.sqhd, completion.sqid, completion.cid) == (1, 1, 1));
    assert!(rt; completion.phase && completion.status == Status::SUCCESS);
    assert!(rt; completion.to_bytes() == WRITTEN);
    completion.status = Status::COMPARE_FAILURE;
    let bytes = completion.to_bytes();
    assert!(rt; (bytes[14], bytes[15]) == (0x0b, 0x05));
}

#[test]
fn entries_and_opcodes(rt: HostRuntime) {
    let entry = Sqe::from_bytes(&WRITE);
    assert!(rt; (entry.opcode, entry.cid, entry.nsid) == (1, 1, 1));
    assert!(rt; (entry.prp1, entry.prp2) == (0x0100_2000, 0));
    assert!(rt; (entry.slba(), entry.count()) == (3, 1));
    assert!(rt; (entry.fuse(), entry.psdt()) == (0, 0));
    for opcode in 0..=255 {
        let want = SERVED.iter().find(|s| s.0 == opcode).map(|s| s.1);
        assert!(rt; Op::of(opcode) == want, "at {opcode}");
    }
}

#[test]
fn entries_both_ways(rt: HostRuntime) {
    assert!(rt; Sqe::from_bytes(&WRITE).to_bytes() == WRITE);
    let mut bytes = [0u8; 64];
    for i in 0..64 {
        bytes[i] = i as u8;
    }
    let entry = Sqe::from_bytes(&bytes);
    assert!(rt; (entry.opcode, entry.flags, entry.cid) == (0x00, 0x01, 0x0302));
    assert!(rt; (entry.nsid, entry.cdw2, entry.cdw3) == (0x0706_0504, 0x0b0a_0908, 0x0f0e_0d0c));
    assert!(rt; (entry.mptr, entry.prp1) == (0x1716_1514_1312_1110, 0x1f1e_1d1c_1b1a_1918));
    assert!(rt; (entry.prp2, entry.cdw10) == (0x2726_2524_2322_2120, 0x2b2a_2928));
    assert!(rt; (entry.cdw11, entry.cdw12, entry.cdw13) == (0x2f2e_2d2c, 0x3332_3130, 0x3736_3534));
    assert!(rt; (entry.cdw14, entry.cdw15) == (0x3b3a_3938, 0x3f3e_3d3c));
    assert!(rt; entry.to_bytes() == bytes);
}

#[test]
fn completions_both_ways(rt: HostRuntime) {
    let cqe = Cqe {
        dw0: 0x0403_0201,
        dw1: 0x0807_0605,
        sqhd: 0x0a09,
        sqid: 0x0c0b,
        cid: 0x0e0d,
        phase: true,
        status: Status::COMPARE_FAILURE,
        mid: 0,
        more: false,
        dnr: true,
    };
    let bytes = [1, 2, 3, 4, 5, 6, 7, 8, 9, 10, 11, 12, 13, 14, 0x0b, 0x85];
    assert!(rt; cqe.to_bytes() == bytes);
    assert!(rt; Cqe::from_bytes(&bytes) == cqe);
}

#[test]
fn each_bit_of_the_status(rt: HostRuntime) {
    for (word, phase, sct, sc, mid, more, dnr) in WORDS {
        let mut bytes = [0u8; 16];
        bytes[14] = (word % 256) as u8;
        bytes[15] = (word / 256) as u8;
        let cqe = Cqe::from_bytes(&bytes);
        assert!(rt;
            (cqe.phase, cqe.more, cqe.dnr) == (phase, more, dnr),
            "at {word}"
        );
        assert!(rt;
            (cqe.status.sct, cqe.status.sc, cqe.mid) == (sct, sc, mid),
            "at {word}"
        );
        assert!(rt; cqe.to_bytes() == bytes, "at {word}");
    }
}

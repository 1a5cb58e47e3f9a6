use super::*;

#[test]
fn each_push(rt: HostRuntime) {
    let mut line = LineBuf::new();
    line.push(b"raw ");
    line.push_field(u32::MAX);
    line.push_number(0);
    line.push_hex(&[0x0f, 0xa0]);
    line.push_number64(u64::MAX);
    line.push_last_field(7);
    assert!(rt; line.bytes() == b"raw 4294967295 00fa0184467440737095516157\n".as_slice());
    line.clear();
    line.push_hex(&[0xff; 64]);
    assert!(rt; line.bytes() == [b'f'; 128].as_slice());
}

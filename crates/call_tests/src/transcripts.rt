//! Lines of transcripts: what is read is printed again, byte by byte, and nothing else is read.

use std::test::Fail;
use transcript::{Line, LineBuf, NotALine, parse_line, print_line};

/// A line of each form. What their numbers say is what the cases of runs show.
const FORMS: [&str; 20] = [
    "nvmigrate transcript 1\n",
    "ready\n",
    "act 1 1\n",
    "reap 1 2 0 00 3 1\n",
    "reap 8 65535 0 0b 0 0\n",
    "fetch 1 2 0 80 0\n",
    "post 1 2 2 85\n",
    "migrate\n",
    "restart\n",
    "round 12 0\n",
    "suspend\n",
    "pause 16 3\n",
    "resume to\n",
    "give up\n",
    "end\n",
    "piece 1 2 3 1 ok e3b0c44298fc1c149afbf4c8996fb92427ae41e4649b934ca495991b7852b855\n",
    "piece 1 2 3 1 ok\n",
    "piece 1 2 3 1 differs 0\n",
    "piece 1 1 0 1 fault 0\n",
    "act 1 0\n",
];

/// Numbers at their bounds.
const BOUNDS: [&str; 10] = [
    "act 8 4294967295\n",
    "reap 8 65535 7 ff 4294967295 1\n",
    "reap 1 0 0 00 0 0\n",
    "fetch 8 65535 7 ff 4294967295\n",
    "post 8 65535 7 ff\n",
    "round 4294967295 4294967295\n",
    "pause 4294967295 0\n",
    "piece 8 65535 4294967295 4294967295 differs 4294967295\n",
    "piece 1 0 0 0 fault 4294967295 e3b0c44298fc1c149afbf4c8996fb92427ae41e4649b934ca495991b7852b855\n",
    "piece 1 0 0 0 ok ffffffffffffffffffffffffffffffffffffffffffffffffffffffffffffffff\n",
];

/// Whether the text is a line, and that line is printed so.
fn is_printed_again(text: &[u8]) -> bool {
    match parse_line(text) {
        Ok(line) => {
            let mut out = LineBuf::new();
            print_line(&line, &mut out);
            out.bytes() == text
        }
        Err(NotALine) => false,
    }
}

/// The two lines that no run writes yet are read as what they say.
#[test]
fn lines_are_read_and_printed(rt: HostRuntime) -> Result<(), Fail> {
    for text in &FORMS {
        assert!(rt; is_printed_again(text.as_bytes()), "{text}");
    }
    for text in &BOUNDS {
        assert!(rt; is_printed_again(text.as_bytes()), "{text}");
    }
    assert!(rt; parse_line(b"restart\n") == Ok(Line::Restart));
    let (owed, pages) = (12, 0);
    assert!(rt; parse_line(b"round 12 0\n") == Ok(Line::Round { owed, pages }));
    Ok(())
}

/// None of these is a line.
const WORDS: [&str; 20] = [
    "",
    "\n",
    "ready",
    "ready\n\n",
    "ready \n",
    " ready\n",
    "Ready\n",
    "end\r\n",
    "end\nend\n",
    "migrate 1\n",
    "resume\n",
    "resume to 1\n",
    "give  up\n",
    "nvmigrate transcript 2\n",
    "nvmigrate script 1\n",
    "act\n",
    "act\t1 1\n",
    "acts 1 1\n",
    "round\n",
    "\nend\n",
];

const NUMBERS: [&str; 20] = [
    "act 1 1",
    "act 1 1\n\n",
    "act 1 1 \n",
    "act 1  1\n",
    "act 1\n",
    "act 1 \n",
    "act 01 1\n",
    "act 1 01\n",
    "act 1 00\n",
    "act 0 1\n",
    "act 9 1\n",
    "act 257 1\n",
    "act 1 -1\n",
    "act 1 +1\n",
    "act 1 4294967296\n",
    "act 1 4294967297\n",
    "act 1 18446744073709551617\n",
    "pause 1 2 3\n",
    "pause 1,2\n",
    "round 1 0x2\n",
];

const EVENTS: [&str; 20] = [
    "reap 1 65536 0 00 0 0\n",
    "reap 1 2 8 00 0 0\n",
    "reap 1 2 00 00 0 0\n",
    "reap 1 2 0 0 0 0\n",
    "reap 1 2 0 0B 0 0\n",
    "reap 1 2 0 0g 0 0\n",
    "reap 1 2 0 00 0 2\n",
    "reap 1 2 0 00 0\n",
    "fetch 1 2 0 000 1\n",
    "fetch 1 2 0 00\n",
    "post 1 2 0 00 0\n",
    "post 1 2 0 0",
    "piece 1 2 3 1\n",
    "piece 1 2 3 1 ok \n",
    "piece 1 2 3 1 done\n",
    "piece 1 2 3 1 fault\n",
    "piece 1 2 3 1 ok e3b0c44298fc1c149afbf4c8996fb92427ae41e4649b934ca495991b7852b85\n",
    "piece 1 2 3 1 ok e3b0c44298fc1c149afbf4c8996fb92427ae41e4649b934ca495991b7852b8555\n",
    "piece 1 2 3 1 ok E3b0c44298fc1c149afbf4c8996fb92427ae41e4649b934ca495991b7852b855\n",
    "piece 1 2 3 1 differs 0 e3b0c44298fc1c149afbf4c8996fb92427ae41e4649b934ca495991b7852b855\n",
];

/// Whether none of these is a line.
fn are_no_lines(texts: &[&str]) -> bool {
    for text in texts {
        if parse_line(text.as_bytes()) != Err(NotALine) {
            return false;
        }
    }
    true
}

#[test]
fn refuses_what_is_no_line(rt: HostRuntime) {
    assert!(rt; are_no_lines(&WORDS));
    assert!(rt; are_no_lines(&NUMBERS));
    assert!(rt; are_no_lines(&EVENTS));
}

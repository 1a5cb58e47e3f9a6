//! Scripts as values: how they are read, alone and in front of other bytes, and how they are written.

use mig_base::{BytesSink, Failed};
use script::{BadLine, ParseRefusal, Why, parse, parse_front, write_script};
use std::alloc::{AllocError, Global};
use std::test::Fail;

/// A script, line by line.
const LINES: [&str; 20] = [
    "nvmigrate script 1\n",
    "blocks 130\n",
    "shelf 65\n",
    "lanes 2\n",
    "lane 1 sq 4 cq 4 pages 2\n",
    "lane 2 sq 4 cq 4 pages 3\n",
    "burst 4\n",
    "mix 0\n",
    "change 4\n",
    "slice 4\n",
    "small 4\n",
    "pages 4\n",
    "patience 8\n",
    "migrate 3\n",
    "1 fill 0 5a\n",
    "2 submit 1 write 3 1 0 -\n",
    "1 poke 1 8 00ff\n",
    "2 list 0 1 2\n",
    "1 idle\n",
    "end\n",
];

/// The script with something in place of a line.
fn spoilt(alloc: Global, line: usize, text: &str) -> Result<Vec<u8>, AllocError> {
    let mut whole = Vec::new(alloc);
    for (i, right) in LINES.iter().enumerate() {
        let part = if i + 1 == line { text } else { right };
        whole.extend_from_slice(part.as_bytes())?;
    }
    Ok(whole)
}

#[test]
fn acts_are_limited(rt: HostRuntime) -> Result<(), Fail> {
    let mut text = Vec::new(rt.alloc());
    for line in &LINES[..13] {
        text.extend_from_slice(line.as_bytes())?;
    }
    for _ in 0..65536 {
        text.extend_from_slice(b"1 wait\n")?;
    }
    let mut most = text.clone()?;
    most.extend_from_slice(b"end\n")?;
    assert!(rt; parse(rt.alloc(), &most).is_ok());
    text.extend_from_slice(b"1 wait\nend\n")?;
    let told = ParseRefusal::Bad(BadLine {
        line: 65550,
        why: Why::Range,
    });
    assert!(rt; parse(rt.alloc(), &text).err() == Some(told));
    Ok(())
}

/// A script with each kind of act.
const EACH_ACT: &str = "\
nvmigrate script 1
blocks 131072
shelf 65536
lanes 2
lane 1 sq 64 cq 256 pages 256
lane 2 sq 2 cq 2 pages 1
burst 64
mix 12345678
change 65536
slice 1
small 131072
pages 2064
patience 65535
migrate 65535
1 fill 255 05
1 poke 0 4064 000102030405060708090a0b0c0d0e0f101112131415161718191a1b1c1d1e1f
1 list 0 0 255 1 2 3 4 5 6
1 submit 65535 write 18446744073709551615 65536 - 255
2 submit 0 flush 0 1 0 -
2 submit 1 read 0 1 0 -
2 submit 2 compare 0 1 - -
2 submit 3 zeroes 0 1 - -
2 submit 4 verify 0 1 - -
2 raw 000102030405060708090a0b0c0d0e0f101112131415161718191a1b1c1d1e1f202122232425262728292a2b2c2d2e2f303132333435363738393a3b3c3d3eff
2 wait
1 idle
end
";

/// Reads the script, and writes it to a sink whose calls of these numbers fail: the answer, and what was taken.
fn rewritten(alloc: Global, fails: &[u64]) -> Result<(Result<(), Failed>, BytesSink), Fail> {
    let Ok(script) = parse(alloc, EACH_ACT.as_bytes()) else {
        return Err(Fail::from("no script"));
    };
    let fails = fails.to_vec(alloc)?;
    let mut sink = BytesSink::make(alloc, 4096, fails).map_err(|_| "no sink")?;
    let answer = write_script(&script, &mut sink);
    Ok((answer, sink))
}

/// How many bytes are line feeds.
fn feeds(text: &[u8]) -> usize {
    text.iter().filter(|byte| **byte == b'\n').count()
}

#[test]
fn a_script_is_written(rt: HostRuntime) -> Result<(), Fail> {
    let text = EACH_ACT.as_bytes();
    let (answer, whole) = rewritten(rt.alloc(), &[])?;
    assert!(rt; answer == Ok(()));
    assert!(rt; whole.bytes() == text);
    for (call, lines) in [(1, 0), (6, 5), (15, 14), (27, 26)] {
        let (answer, front) = rewritten(rt.alloc(), &[call])?;
        assert!(rt; answer == Err(Failed));
        assert!(rt; text.starts_with(front.bytes()));
        assert!(rt; feeds(front.bytes()) == lines);
    }
    Ok(())
}

/// The script and bytes behind it.
fn followed(alloc: Global, behind: &[u8]) -> Result<Vec<u8>, AllocError> {
    let mut text = spoilt(alloc, 0, "")?;
    text.extend_from_slice(behind)?;
    Ok(text)
}

#[test]
fn fronts_are_read(rt: HostRuntime) -> Result<(), Fail> {
    let script = spoilt(rt.alloc(), 0, "")?;
    let other = EACH_ACT.as_bytes();
    for behind in [
        b"".as_slice(),
        b"x",
        b"\n",
        b"end\n",
        b"1 wait\nend\n",
        &script,
        other,
    ] {
        let text = followed(rt.alloc(), behind)?;
        let (read, end) = parse_front(rt.alloc(), &text)
            .ok()
            .ok_or("a script is there")?;
        assert!(rt; read.head.blocks == 130);
        assert!(rt; read.acts.list().len() == 5);
        assert!(rt; end == script.len());
    }
    Ok(())
}

#[test]
fn bad_fronts_are_told(rt: HostRuntime) -> Result<(), Fail> {
    let spoils = [
        (1, "nvmigrate script 2\n", Why::Form),
        (2, "blocks 0\n", Why::Range),
        (15, "3 fill 0 5a\n", Why::Range),
        (19, "1 wait 1\n", Why::Form),
        (20, "end \n", Why::Form),
        (20, "end", Why::Cut),
        (20, "", Why::Cut),
    ];
    for (line, text, why) in spoils {
        let text = spoilt(rt.alloc(), line, text)?;
        let found = parse_front(rt.alloc(), &text).err();
        assert!(rt;
            found
                == Some(ParseRefusal::Bad(BadLine {
                    line: line as u32,
                    why,
                }))
        );
    }
    Ok(())
}

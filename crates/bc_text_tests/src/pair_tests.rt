//! Joined texts with their two parts, and texts without a line that separates.
use bc_pair::*;

// Joined texts, each with its two parts and the number of the line between them.
const JOINED: [(&[u8], &[u8], &[u8], u32); 7] = [
    (b"a\n====\nb\n", b"a\n", b"b\n", 2),
    (b"a\r\n====\r\nb\r\n", b"a\r\n", b"b\r\n", 2),
    (b"====\r\n====\n", b"", b"====\n", 1),
    (b"a\r\n\n====", b"a\r\n\n", b"", 3),
    (b"\n\n====\n", b"\n\n", b"", 3),
    (b"====", b"", b"", 1),
    (b"=====\n ====\n====\n", b"=====\n ====\n", b"", 3),
];

// Texts without a line that separates.
const WHOLE: [&[u8]; 6] = [
    b"",
    b"a\nb\n",
    b"===\n",
    b"==== \n",
    b"a====\n",
    b"====\r\r\n",
];

#[test]
fn joined_and_whole_texts(rt: HostRuntime) {
    for (text, first, second, line) in JOINED {
        let parts = if text.len() < 100 {
            split_parts(text)
        } else {
            Err(NoPart)
        };
        match parts {
            Ok(parts) => {
                assert!(rt; parts.first == first && parts.second == second);
                assert_eq!(rt; parts.line, line);
            }
            Err(NoPart) => assert!(rt; false),
        }
    }
    for text in WHOLE {
        assert!(rt; text.len() < 100 && split_parts(text).is_err());
    }
}

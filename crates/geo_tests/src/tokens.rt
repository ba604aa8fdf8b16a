//! What no clause says: that a call succeeds with ample memory, and that the rules are those that
//! were meant.
use geo_lexer::Kind::{Close, Number, Open, Word};
use geo_lexer::{Fault, Kind, Token, tokens};
use std::test::Fail;

// A text, its tokens by kind, first byte and the byte after the last, and its fault by refusal and
// place.
type Row = (
    &'static [u8],
    &'static [(Kind, u64, u64)],
    Option<(u32, u64)>,
);

const ROWS: &[Row] = &[
    (b"", &[], None),
    (b" \t\r\n", &[], None),
    (b"%", &[], None),
    (b"% a comment", &[], None),
    (b"% a comment\n", &[], None),
    (b"%\r a\n b", &[(Word, 6, 7)], None),
    (
        b"a\tb\rc\nd e",
        &[
            (Word, 0, 1),
            (Word, 2, 3),
            (Word, 4, 5),
            (Word, 6, 7),
            (Word, 8, 9),
        ],
        None,
    ),
    (b"a%b\nc", &[(Word, 0, 1), (Word, 4, 5)], None),
    (b"%%x%\n{", &[(Open, 5, 6)], None),
    (b"a% %", &[(Word, 0, 1)], None),
    (
        b"{a}}{",
        &[
            (Open, 0, 1),
            (Word, 1, 2),
            (Close, 2, 3),
            (Close, 3, 4),
            (Open, 4, 5),
        ],
        None,
    ),
    (b"az9_AZ0 A", &[(Word, 0, 7), (Word, 8, 9)], None),
    (
        b"abcdefghabcdefghabcdefghabcdefghabcdefghabcdefghabcdefghabcdefgh",
        &[(Word, 0, 64)],
        None,
    ),
    (
        b"abcdefghabcdefghabcdefghabcdefghabcdefghabcdefghabcdefghabcdefghi",
        &[],
        Some((3, 0)),
    ),
    (
        b"x Z9_9_9_9_9_9_9_9_9_9_9_9_9_9_9_9_9_9_9_9_9_9_9_9_9_9_9_9_9_9_9_9_",
        &[(Word, 0, 1)],
        Some((3, 2)),
    ),
    (
        b"170141183460469231731687303715884105727",
        &[(Number, 0, 39)],
        None,
    ),
    (
        b"-170141183460469231731687303715884105727",
        &[(Number, 0, 40)],
        None,
    ),
    (
        b"-00170141183460469231731687303715884105727",
        &[(Number, 0, 42)],
        None,
    ),
    (
        b"170141183460469231731687303715884105728",
        &[],
        Some((2, 0)),
    ),
    (
        b"-0170141183460469231731687303715884105728",
        &[],
        Some((2, 0)),
    ),
    (
        b" x 170141183460469231731687303715884105728 y",
        &[(Word, 1, 2)],
        Some((2, 3)),
    ),
    (b"-0 007", &[(Number, 0, 2), (Number, 3, 6)], None),
    (b"12ab", &[(Number, 0, 2), (Word, 2, 4)], None),
    (b"5-3", &[(Number, 0, 1), (Number, 1, 3)], None),
    (b"--5", &[], Some((1, 0))),
    (b"5--3", &[(Number, 0, 1)], Some((1, 1))),
    (b"a -", &[(Word, 0, 1)], Some((1, 2))),
    (b"a - 5", &[(Word, 0, 1)], Some((1, 2))),
    (b"-a", &[], Some((1, 0))),
    (b"_", &[], Some((1, 0))),
    (b"a_ _b", &[(Word, 0, 2)], Some((1, 3))),
    (b"5_", &[(Number, 0, 1)], Some((1, 1))),
    (b"a\x80", &[(Word, 0, 1)], Some((1, 1))),
    (b"\xff", &[], Some((1, 0))),
    (b"a\0", &[(Word, 0, 1)], Some((1, 1))),
    (b"a\x0cb", &[(Word, 0, 1)], Some((1, 1))),
    (b"a \x0b", &[(Word, 0, 1)], Some((1, 2))),
    (b"%\0\x80\n+", &[], Some((1, 4))),
    (b"A@", &[(Word, 0, 1)], Some((1, 1))),
    (b"Z[", &[(Word, 0, 1)], Some((1, 1))),
    (b"a`", &[(Word, 0, 1)], Some((1, 1))),
    (b"0/", &[(Number, 0, 1)], Some((1, 1))),
    (b"9:", &[(Number, 0, 1)], Some((1, 1))),
    (b"{|", &[(Open, 0, 1)], Some((1, 1))),
];

#[test]
fn texts_have_their_tokens(rt: HostRuntime) -> Result<(), Fail> {
    for (text, row, fault) in ROWS {
        let lexed = tokens(rt.alloc(), text)?;
        let fault = fault.map(|(refusal, place)| Fault { refusal, place });
        assert_eq!(rt; lexed.fault, fault, "{text:?}");
        assert_eq!(rt; lexed.tokens.items.len(), row.len(), "{text:?}");
        for (token, (kind, start, end)) in lexed.tokens.items.iter().zip(*row) {
            let want = Token {
                kind: *kind,
                start: *start,
                end: *end,
            };
            assert_eq!(rt; *token, want, "{text:?}");
        }
    }
    Ok(())
}

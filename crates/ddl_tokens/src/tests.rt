ghost use Rattle.std.specs.Prelude.{◌<◌, length};

use crate::{LetterCase, ReadFault, Reader, SyntaxFault, TokenKind, line_of};
use dict_value::{Bytes, NoMemory, split_at_byte};
use std::alloc::Global;
use std::test::Fail;

const MOST: usize = 4_194_304;

/// A place below 100.
fn push_place(place: u32, out: &mut Bytes) -> Result<(), NoMemory> {
    if place >= 10 {
        out.push(b'0' + (place / 10 % 10) as u8)?;
    }
    out.push(b'0' + (place % 10) as u8)
}

fn letter(kind: TokenKind) -> u8 {
    match kind {
        TokenKind::Word => b'w',
        TokenKind::QuotedWord => b'q',
        TokenKind::Number => b'n',
        TokenKind::String => b's',
        TokenKind::Sign => b'p',
        TokenKind::Broken => b'!',
        TokenKind::End => b'.',
    }
}

/// Each token's kind, its place where places are shown, and its bytes.
fn show(alloc: Global, text: &[u8], places: bool, out: &mut Bytes) -> Result<(), NoMemory> {
    if text.len() > MOST {
        return Ok(());
    }
    let mut reader = Reader::new(text);
    for _ in 0..MOST {
        out.push(letter(reader.kind()))?;
        if places {
            push_place(reader.place(), out)?;
        }
        if !reader.goes_on() {
            return Ok(());
        }
        out.push(b':')?;
        out.extend(reader.bytes(alloc)?.as_slice())?;
        out.push(b' ')?;
        reader.skip();
    }
    Ok(())
}

/// Each row has a text, a unit separator (1f), and its tokens: the letter of each one's kind, its place,
/// and its bytes. A record separator (1e) ends a row; one that begins with # has no text.
const ROWS: &[u8] = b"
# nothing but blanks and comments\x1e
\x1f.0\x1e
 \t\r\n\x1f.4\x1e
-- c\x1f.4\x1e
--\x1f.2\x1e
--\n--\x1f.5\x1e
/* c */\x1f.7\x1e
# quoted texts and comments without their end\x1e
a 'bc\x1fw0:a !2\x1e
a `bc''\x1fw0:a !2\x1e
a \"bc'\x1fw0:a !2\x1e
a /* bc\x1fw0:a !2\x1e
a /*/\x1fw0:a !2\x1e
'a''b\x1f!0\x1e
'''\x1f!0\x1e
'a\\'\x1f!0\x1e
'a\\\x1f!0\x1e
# `\\x` without two digits\x1e
a 'b\\x4'\x1fw0:a !4\x1e
a 'b\\x4g'\x1fw0:a !4\x1e
a 'b\\xg4'\x1fw0:a !4\x1e
a 'b\\x'\x1fw0:a !4\x1e
'\\x41\\x\\x'\x1f!5\x1e
`\\x``4`\x1f!1\x1e
a 'b\\x4\x1fw0:a !2\x1e
'\\x4\\'\x1f!0\x1e
# bytes that begin no token\x1e
a $\x1fw0:a !2\x1e
a\\b\x1fw0:a !1\x1e
a - b\x1fw0:a !2\x1e
a + b\x1fw0:a !2\x1e
a / b\x1fw0:a !2\x1e
a * b\x1fw0:a !2\x1e
a\xc3\xa9\x1fw0:a !1\x1e
a\0\x1fw0:a !1\x1e
-a\x1f!0\x1e
# quote signs in quotes\x1e
'it''s'\x1fs0:it's .7\x1e
'a\\'b'\x1fs0:a'b .6\x1e
`a``b`\x1fq0:a`b .6\x1e
\"a\"\"b\"\x1fq0:a\"b .6\x1e
'a\"b`c'\x1fs0:a\"b`c .7\x1e
''\x1fs0: .2\x1e
''''\x1fs0:' .4\x1e
'' ''\x1fs0: s3: .5\x1e
# comment signs in quotes\x1e
'--' '/*' '*/'\x1fs0:-- s5:/* s10:*/ .14\x1e
`--`\x1fq0:-- .4\x1e
# escapes\x1e
'\\b\\f\\r\\n\\t\\0\\a\\v'\x1fs0:\x08\x0c\r\n\t\0\x07\x0b .18\x1e
'\\x41\\x7e\\xFf\\x0a'\x1fs0:A~\xff\n .18\x1e
'\\\\\\q\\N\\B\\X'\x1fs0:\\qNBX .12\x1e
`\\t\\`` \"\\x22\"\x1fq0:\t` q7:\" .13\x1e
# comments end at their first end\x1e
-- 'a\nb\x1fw6:b .7\x1e
a--b\r\nc\x1fw0:a w6:c .7\x1e
/* ' -- */b\x1fw10:b .11\x1e
/* /* */ */\x1f!9\x1e
/***/a/**/b\x1fw5:a w10:b .11\x1e
/*/*/a\x1fw5:a .6\x1e
# words, numbers and signs\x1e
a_1 _b B2x\x1fw0:a_1 w4:_b w7:B2x .10\x1e
1 +2 -30\x1fn0:1 n2:+2 n5:-30 .8\x1e
4.5 -6.70 007\x1fn0:4.5 n4:-6.70 n10:007 .13\x1e
1. .5 1.2.3\x1fn0:1 p1:. p3:. n4:5 n6:1.2 p9:. n10:3 .11\x1e
1a 2-3 4--5\x1fn0:1 w1:a n3:2 n4:-3 n7:4 .11\x1e
(),;.=\x1fp0:( p1:) p2:, p3:; p4:. p5:= .6\x1e
a.b\x1fw0:a p1:. w2:b .3\x1e
f(a,'b')\x1fw0:f p1:( w2:a p3:, s4:b p7:) .8\x1e
";

/// Whether the text of a row has the tokens that the row tells.
fn holds(alloc: Global, row: &[u8]) -> Result<bool, NoMemory> {
    let [b'\n', row @ ..] = row else {
        return Ok(false);
    };
    let Some((text, wanted)) = split_at_byte(row, 0x1f) else {
        return Ok(matches!(row, [b'#', ..]));
    };
    let mut out = Bytes::new(alloc);
    show(alloc, text, true, &mut out)?;
    Ok(out.as_slice() == wanted)
}

#[test]
fn tokens_with_their_places(rt: HostRuntime) -> Result<(), Fail> {
    let mut rest = ROWS;
    for number in 0..ROWS.len() {
        let Some((row, others)) = split_at_byte(rest, 0x1e) else {
            assert_eq!(rt; number, 69);
            return Ok(());
        };
        assert!(rt; holds(rt.alloc(), row)?, "row {number}");
        rest = others;
    }
    assert!(rt; false);
    Ok(())
}

#[test]
fn blanks_and_comments_do_not_count(rt: HostRuntime) -> Result<(), Fail> {
    let texts: [&[u8]; 4] = [
        b"CREATE DICTIONARY d(id UInt64,x String DEFAULT 'a b')LIFETIME(0);",
        b"CREATE\tDICTIONARY\r\nd ( id UInt64 , x String DEFAULT 'a b' ) LIFETIME ( 0 ) ; ",
        b"CREATE/**/DICTIONARY/* d */d(id/*,*/UInt64,x/***/String/*/*/DEFAULT'a b')LIFETIME(0);--",
        b"-- a file\nCREATE DICTIONARY d--\n(id UInt64,--,\nx String DEFAULT 'a b')LIFETIME(0);-- ;",
    ];
    let mut first = Bytes::new(rt.alloc());
    show(rt.alloc(), texts[0], false, &mut first)?;
    for text in texts {
        let mut out = Bytes::new(rt.alloc());
        show(rt.alloc(), text, false, &mut out)?;
        assert_eq!(rt; out.as_slice(), first.as_slice());
    }
    Ok(())
}

fn filled(alloc: Global, front: &[u8], fill: u8, back: &[u8]) -> Result<Bytes, NoMemory> {
    let mut text = Bytes::with_room(alloc, MOST)?;
    text.extend(front)?;
    for _ in front.len() + back.len()..MOST {
        text.push(fill)?;
    }
    text.extend(back)?;
    Ok(text)
}

/// How many tokens come before the last one, which is the end or broken, and the place of that.
fn count(text: &[u8]) -> (usize, u32, bool)
    requires { length text.now < 4294967295 }
{
    let mut reader = Reader::new(text);
    for tokens in 0..MOST + 1 {
        if !reader.goes_on() {
            return (tokens, reader.place(), reader.kind() == TokenKind::End);
        }
        reader.skip();
    }
    (0, 0, false)
}

#[test]
fn large_texts(rt: HostRuntime) -> Result<(), Fail> {
    let cases: [(&[u8], u8, &[u8], (usize, u32, bool)); 12] = [
        (b"--", b'-', b"", (0, 4_194_304, true)),
        (b"/*", b'*', b"*/", (0, 4_194_304, true)),
        (b"/*", b'/', b"", (0, 0, false)),
        (b"'", b'a', b"'", (1, 4_194_304, true)),
        (b"'", b'a', b"", (0, 0, false)),
        (b"'", b'\'', b"'", (1, 4_194_304, true)),
        (b"'", b'\\', b"'", (1, 4_194_304, true)),
        (b"", b'(', b"", (4_194_304, 4_194_304, true)),
        (b"", b'\n', b"$", (0, 4_194_303, false)),
        (b"", b'a', b"", (1, 4_194_304, true)),
        (b"", b'7', b"", (1, 4_194_304, true)),
        (b"", b'-', b"\n;", (1, 4_194_304, true)),
    ];
    for (front, fill, back, wanted) in cases {
        let text = filled(rt.alloc(), front, fill, back)?;
        assert!(rt; text.len() < 4_294_967_295);
        assert_eq!(rt; count(text.as_slice()), wanted);
    }
    Ok(())
}

#[test]
fn a_large_string_is_kept(rt: HostRuntime) -> Result<(), Fail> {
    let text = filled(rt.alloc(), b"'", b'a', b"'")?;
    assert!(rt; text.len() < 4_294_967_295 && text.len() == MOST);
    let mut reader = Reader::new(text.as_slice());
    assert!(rt; reads(reader.string(rt.alloc()), &text.as_slice()[1..MOST - 1]));
    Ok(())
}

#[test]
fn lines_of_places(rt: HostRuntime) -> Result<(), Fail> {
    let cases = [(0, 1), (1, 1), (2, 2), (3, 3), (4, 3), (6, 4)];
    for (place, line) in cases {
        assert_eq!(rt; line_of(b"a\n\nb\r\n", place), line);
    }
    Ok(())
}

#[test]
fn words_in_either_case(rt: HostRuntime) -> Result<(), Fail> {
    let cases: [(&[u8], LetterCase, &[u8], bool); 12] = [
        (b"Layout", LetterCase::Any, b"LAYOUT", true),
        (b"Layout", LetterCase::AsWritten, b"LAYOUT", false),
        (b"LAYOUT", LetterCase::AsWritten, b"LAYOUT", true),
        (b"LAYOUTS", LetterCase::Any, b"LAYOUT", false),
        (b"LAYOU", LetterCase::Any, b"LAYOUT", false),
        (b"`lay\\x4fut`", LetterCase::Any, b"LAYOUT", true),
        (b"\"lay\"\"out\"", LetterCase::Any, b"LAY\"OUT", true),
        (b"'csv'", LetterCase::AsWritten, b"csv", true),
        (b"'CSV'", LetterCase::AsWritten, b"csv", false),
        (b"'\\c\\s\\t'", LetterCase::AsWritten, b"cs\t", true),
        (b"''", LetterCase::Any, b"", true),
        (b"_", LetterCase::Any, b"\x7f", false),
    ];
    for (text, case, word, wanted) in cases {
        assert_eq!(rt; Reader::new(text).means(case, word), wanted);
    }
    assert!(rt; Reader::new(b"layOUT(").sees_keyword(b"LAYOUT"));
    assert!(rt; !Reader::new(b"`LAYOUT`(").sees_keyword(b"LAYOUT"));
    assert!(rt; !Reader::new(b"'LAYOUT'(").sees_keyword(b"LAYOUT"));
    Ok(())
}

fn reads(answer: Result<Bytes, ReadFault>, wanted: &[u8]) -> bool {
    match answer {
        Ok(bytes) => bytes.as_slice() == wanted,
        Err(_) => false,
    }
}

fn is_refused<T: Drop>(answer: Result<T, ReadFault>, place: u32) -> bool {
    match answer {
        Ok(_) => false,
        Err(fault) => fault == ReadFault::Syntax(SyntaxFault::Unexpected(place)),
    }
}

#[test]
fn tokens_are_taken_by_kind(rt: HostRuntime) -> Result<(), Fail> {
    let mut reader = Reader::new(b"Layout ( `a``b` c 'd\\ne' -4.50 )");
    assert!(rt; is_refused(reader.keyword(b"LAYOUTS"), 0));
    assert!(rt; reader.keyword(b"LAYOUT").is_ok());
    assert!(rt; is_refused(reader.name(rt.alloc()), 7));
    assert!(rt; reader.sign(b'(').is_ok());
    assert!(rt; is_refused(reader.string(rt.alloc()), 9));
    assert!(rt; reads(reader.name(rt.alloc()), b"a`b"));
    assert!(rt; reads(reader.name(rt.alloc()), b"c"));
    assert!(rt; is_refused(reader.number(), 18));
    assert!(rt; reads(reader.string(rt.alloc()), b"d\ne"));
    match reader.number() {
        Ok(number) => assert!(rt; number == b"-4.50".as_slice()),
        Err(_) => assert!(rt; false),
    }
    assert!(rt; is_refused(reader.sign(b'('), 31));
    assert!(rt; reader.sign(b')').is_ok());
    assert!(rt; is_refused(reader.number(), 32));
    Ok(())
}

// Texts whose records are known from outside.

use csv_records::{Record, Records};
use std::alloc::AllocError;
use std::process::Abort;
use std::str;
use std::test::Fail;

// A record in brackets, with bars between its fields.
fn show(text: &mut String, record: &Record) -> Result<(), AllocError> {
    text.push('[')?;
    for place in 0..record.len() {
        if place > 0 {
            text.push('|')?;
        }
        let field = record.get(place).unwrap_or(b"no field");
        text.push_str(str::from_utf8(field).unwrap_or("no text"))?;
    }
    text.push(']')
}

fn gives(
    rt: &(impl Abort + AllocGlobal),
    name: &str,
    bytes: &[u8],
    want: &str,
) -> Result<(), Fail> {
    let mut records = Records::of(rt.alloc(), bytes);
    let mut text = String::new(rt.alloc());
    while records.advance()? {
        show(&mut text, records.taken())?;
    }
    assert!(rt; text.as_str() == want, "{name}");
    Ok(())
}

#[test]
fn texts_give_their_records(rt: HostRuntime) -> Result<(), Fail> {
    for (name, text, records) in [
        ("line feeds", "line,rank\nL1>B,0\n", "[line|rank][L1>B|0]"),
        ("two bytes at a line end", "a,b\r\nc,d\r\n", "[a|b][c|d]"),
        ("no last line feed", "a,b\nc,d", "[a|b][c|d]"),
        ("a byte order mark", "\u{FEFF}a,b\n", "[a|b]"),
        ("quotes", "\"a,\"\"b\"\"\",\"c\nd\"\n", "[a,\"b\"|c\nd]"),
        ("blank lines", "\n\na\n\r\n\nb\n\n", "[a][b]"),
        ("no bytes", "", ""),
        ("a lone carriage return", "a\rb", "[a][b]"),
        ("two quotes alone", "\"\"", "[]"),
        ("a comma alone", ",", "[|]"),
        ("spaces", " a , b ", "[ a | b ]"),
        ("other lengths", "a\nb,c\nd,e,f\n", "[a][b|c][d|e|f]"),
        ("an open quote", "a,\"b\nc", "[a|b\nc]"),
        ("a quote inside a field", "a\"b\",c", "[a\"b\"|c]"),
        ("text after a quote", "\"a\"b,c", "[ab|c]"),
    ] {
        gives(&rt, name, text.as_bytes(), records)?;
    }
    gives(&rt, "bytes that are no text", b"\xFF,b", "[no text|b]")
}

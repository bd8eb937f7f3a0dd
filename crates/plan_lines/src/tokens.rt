// The tokens of a plain line. Each function reads from the front of a text what TOML's grammar reads
// there, or stops; what it takes is less than the grammar does.

ghost use Rattle.std.specs.Prelude.{◌≡◌, ◌<◌, ◌≤◌, ◌^◌, ℕ, pos, true, false, Some, [], length, string_bytes, IfOk, IfSome, ⊤};
ghost use Rattle.std.specs.Char.{is_ascii_digit};
ghost use Rattle.std.specs.List.{prefix_len};
ghost use Rattle.toml_parser.specs.Strings.{is_plain, quoted as quoted_text, starts_string as starts};
ghost use Rattle.toml_parser.specs.Lexical.{is_bare as is_bare_byte, skip_ws as after_ws};
ghost use Rattle.toml.specs.Data.{integer};
ghost use Rattle.toml.specs.Parse as toml_grammar;
ghost use Rattle.toml.specs.View.{view};

use std::alloc::{AllocError, Global};
use sync_text::{NoMemory, read_number};
use toml::Value;
use toml_parser::bytes::{is_bare, is_non_eol, is_word, is_ws};
use toml_parser::text::{first, skip, skip_blank, skip_ws};
use toml_parser::{ParseError, Scalar, quoted, starts_string, unquoted};

/// Why a text isn't read line by line.
///
/// This project's own.
#[derive(Clone, Copy, Debug)]
pub enum Stop {
    /// It isn't plain. Whether it is a plan is for its document to say.
    NotPlain,
    /// Out of memory.
    NoMemory,
}

impl From<NoMemory> for Stop {
    ghost from_gives = { λ _ _. ⊤ };

    fn from(_: NoMemory) -> Stop {
        Stop::NoMemory
    }
}

impl From<AllocError> for Stop {
    ghost from_gives = { λ _ _. ⊤ };

    fn from(_: AllocError) -> Stop {
        Stop::NoMemory
    }
}

impl From<ParseError> for Stop {
    ghost from_gives = { λ _ _. ⊤ };

    fn from(error: ParseError) -> Stop {
        match error {
            ParseError::OutOfMemory => Stop::NoMemory,
            ParseError::At(..) => Stop::NotPlain,
        }
    }
}

/// How many bytes at the front are of a bare key.
fn bare_len(bytes: &[u8]) -> usize
    ensures len { result ≡ prefix_len is_bare_byte bytes.now }
    ensures within { result ≤ length bytes.now }
{
    let mut len = 0;
    while len < bytes.len() && is_key_byte(bytes[len]) {
        len += 1;
    }
    len
}

/// The byte is one of a bare key. Nearly always it is a small letter or `_`.
#[inline]
fn is_key_byte(byte: u8) -> bool
    ensures { result ≡ is_bare_byte byte }
{
    byte.is_ascii_lowercase() || byte == b'_' || is_bare(byte)
}

/// What stands after white space. One space, or none, is looked at here, since it is nearly always so.
fn after_space(s: &str) -> &str
    ensures rest { result.now ≡ after_ws s.now }
    ensures within { length result.now ≤ length s.now }
{
    if first(s) == b' ' {
        return after_others(skip(s, 1));
    }
    after_others(s)
}

/// What stands after white space of which there is nearly always none.
fn after_others(s: &str) -> &str
    ensures rest { result.now ≡ after_ws s.now }
    ensures within { length result.now ≤ length s.now }
{
    if is_ws(first(s)) { skip_ws(s) } else { s }
}

/// A bare key, and what stands after `=` and white space.
pub(crate) fn key_equals(s: &str) -> Result<(&str, &str), Stop>
    ensures read { IfOk result (λ p. toml_grammar.key_equals s.now ≡ Some (([], p.0.now), p.1.now)) }
    ensures shorter { IfOk result (λ p. length p.1.now < length s.now) }
{
    let (key, rest) = s.split_at(bare_len(s.as_bytes()));
    let rest = after_space(rest);
    if key.is_empty() || first(rest) != b'=' {
        return Err(Stop::NotPlain);
    }
    Ok((key, after_space(skip(rest, 1))))
}

/// A string or an integer.
pub(crate) fn plain_value(alloc: Global, s: &str) -> Result<(Value, &str), Stop>
    ensures read { IfOk result (λ p. (depth : ℕ) → toml_grammar.val depth s.now ≡ Some (view p.0, p.1.now)) }
    ensures shorter { IfOk result (λ p. length p.1.now < length s.now) }
{
    if starts_string(s) {
        let (text, rest) = string(alloc, s)?;
        return Ok((Value::String(text), rest));
    }
    if let Some((value, rest)) = printed_number(s) {
        return Ok((value, rest));
    }
    let (scalar, rest) = unquoted(alloc, s)?;
    Ok((integer_of(scalar)?, rest))
}

/// A string. One on a line with no backslash is cut out here, since it is nearly always so.
fn string(alloc: Global, s: &str) -> Result<(String, &str), Stop>
    requires { starts s.now ≡ true }
    ensures read { IfOk result (λ p. quoted_text s.now ≡ Some (string_bytes p.0, p.1.now)) }
    ensures shorter { IfOk result (λ p. length p.1.now < length s.now) }
{
    let inner = skip(s, 1);
    let (text, rest) = inner.split_at(plain_len(inner.as_bytes()));
    if first(s) != b'"' || first(rest) != b'"' || text.is_empty() {
        let read = quoted(alloc, s)?;
        return Ok(read);
    }
    Ok((String::from_str(alloc, text)?, skip(rest, 1)))
}

/// How many bytes at the front stand for themselves between quotes.
fn plain_len(bytes: &[u8]) -> usize
    ensures len { result ≡ prefix_len (is_plain 34 false) bytes.now }
    ensures within { result ≤ length bytes.now }
{
    let mut len = 0;
    while len < bytes.len() && is_text(bytes[len]) {
        len += 1;
    }
    len
}

/// The byte stands for itself between quotes.
#[inline]
fn is_text(byte: u8) -> bool
    ensures { result ≡ is_plain 34 false byte }
{
    byte != b'"' && byte != b'\\' && is_non_eol(byte)
}

/// A number as it is printed, which is nearly always so: digits alone, with no zero before them.
fn printed_number(s: &str) -> Option<(Value, &str)>
    ensures read { IfSome result (λ p. (depth : ℕ) → toml_grammar.val depth s.now ≡ Some (view p.0, p.1.now)) }
    ensures shorter { IfSome result (λ p. length p.1.now < length s.now) }
{
    let (digits, rest) = s.split_at(digits_len(s.as_bytes()));
    if digits.is_empty() || is_word(first(rest)) || first(rest) == b' ' {
        return None;
    }
    let number = read_number(digits.as_bytes())?;
    Some((integer_value(number)?, rest))
}

/// The value of a number that fits.
fn integer_value(number: u64) -> Option<Value>
    ensures fits { IfSome result (λ value. number < 2 ^ 63) }
    ensures value { IfSome result (λ value. view value ≡ integer (pos number)) }
{
    let signed = i64::try_from(number).ok()?;
    Some(Value::Integer(signed))
}

/// How many bytes at the front are digits.
fn digits_len(bytes: &[u8]) -> usize
    ensures len { result ≡ prefix_len is_ascii_digit bytes.now }
    ensures within { result ≤ length bytes.now }
{
    let mut len = 0;
    while len < bytes.len() && bytes[len].is_ascii_digit() {
        len += 1;
    }
    len
}

/// The integer that a scalar is.
fn integer_of(scalar: Scalar) -> Result<Value, Stop>
    ensures { IfOk result (λ value. view value ≡ toml_grammar.scalar_data scalar) }
{
    match scalar {
        Scalar::Integer(number) => Ok(Value::Integer(number)),
        _ => Err(Stop::NotPlain),
    }
}

/// What stands after a comma, or the closing bracket that comes next.
pub(crate) fn after_element(s: &str, closing: u8) -> Result<&str, Stop>
    ensures read { IfOk result (λ rest. toml_grammar.after_element closing s.now ≡ Some rest.now) }
    ensures within { IfOk result (λ rest. length rest.now ≤ length s.now) }
{
    let rest = skip_blank(s, true);
    if first(rest) == b',' {
        return Ok(skip(rest, 1));
    }
    if first(rest) == closing {
        Ok(rest)
    } else {
        Err(Stop::NotPlain)
    }
}

/// What stands after an expression, which has to end its line.
pub(crate) fn line_end(rest: &str) -> Result<&str, Stop>
    ensures rest { IfOk result (λ end. end.now ≡ rest.now) }
    ensures ends { IfOk result (λ end. toml_grammar.ends_line (after_ws rest.now) ≡ true) }
{
    let end = after_space(rest);
    if end.is_empty() || matches!(first(end), b'#' | b'\n' | b'\r') {
        Ok(rest)
    } else {
        Err(Stop::NotPlain)
    }
}

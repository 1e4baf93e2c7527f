//! What the fields of a head say.
ghost use Rattle.std.specs.Prelude.{◌≡◌, ◌≤◌, ◌<◌, ◌^◌, ◌==◌, ◌&&◌, ◌||◌, not, length, map, option_map, All, codes, if◌then◌else◌, Some, None, IfSome};
ghost use Rattle.std.specs.List.{list_any};
ghost use Rattle.std.specs.Str.Parse.{digits_value};
ghost use Rattle.httparse.specs.Spans.{IsHeaderWithin, header_bytes};
ghost use Rattle.http_wire.specs.Fields.{asks_to_close, first_value, is_close, is_length, is_named, is_other_length};

use crate::words::has_word;
use httparse::spans::HeaderSpan;

/// Whether the field has this name, compared without case.
pub fn has_name(buf: &[u8], field: &HeaderSpan, name: &[u8]) -> bool
    requires { IsHeaderWithin (length buf.now) field.now }
    ensures { result ≡ is_named name.now (header_bytes buf.now field.now) }
{
    field.name.of(buf).eq_ignore_ascii_case(name)
}

/// The value of the first field of this name.
pub fn find_value<'b>(buf: &'b [u8], fields: &[HeaderSpan], name: &[u8]) -> Option<&'b [u8]>
    requires { All (IsHeaderWithin (length buf.now)) fields.now }
    ensures { option_map (λ v. v.now) result ≡ first_value name.now (map (header_bytes buf.now) fields.now) }
{
    for field in fields {
        if has_name(buf, field, name) {
            return Some(field.value.of(buf));
        }
    }
    None
}

/// The digits of the longest value of Content-Length.
const MOST_DIGITS: usize = 18;

/// The number that a value of Content-Length writes, where it has 1 to 18 digits and nothing else.
pub fn read_length(value: &[u8]) -> Option<u64>
    ensures { result ≡ (if is_length value.now then Some (digits_value 10 value.now) else None) }
{
    if value.is_empty() || value.len() > MOST_DIGITS {
        return None;
    }
    let mut number: u64 = 0;
    for digit in value {
        if !digit.is_ascii_digit() {
            return None;
        }
        number = number * 10 + u64::from(*digit - b'0');
    }
    Some(number)
}

/// Whether the field is a Content-Length of another number than this one, or of none.
fn is_other(buf: &[u8], field: &HeaderSpan, number: u64) -> bool
    requires { IsHeaderWithin (length buf.now) field.now }
    ensures { result ≡ is_other_length number (header_bytes buf.now field.now) }
{
    if !has_name(buf, field, b"content-length") {
        return false;
    }
    match read_length(field.value.of(buf)) {
        Some(other) => other != number,
        None => true,
    }
}

/// Whether some field is such a Content-Length.
pub fn any_other(buf: &[u8], fields: &[HeaderSpan], number: u64) -> bool
    requires { All (IsHeaderWithin (length buf.now)) fields.now }
    ensures { result ≡ list_any (is_other_length number) (map (header_bytes buf.now) fields.now) }
{
    for field in fields {
        if is_other(buf, field, number) {
            return true;
        }
    }
    false
}

/// Whether the field is a Connection that has the word `close`.
fn is_close(buf: &[u8], field: &HeaderSpan) -> bool
    requires { IsHeaderWithin (length buf.now) field.now }
    ensures { result ≡ is_close (header_bytes buf.now field.now) }
{
    has_name(buf, field, b"connection") && has_word(field.value.of(buf), b"close")
}

/// Whether some field Connection has the word `close`.
pub fn wants_close(buf: &[u8], fields: &[HeaderSpan]) -> bool
    requires { All (IsHeaderWithin (length buf.now)) fields.now }
    ensures { result ≡ asks_to_close (map (header_bytes buf.now) fields.now) }
{
    for field in fields {
        if is_close(buf, field) {
            return true;
        }
    }
    false
}

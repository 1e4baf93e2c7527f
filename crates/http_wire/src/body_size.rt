//! The first fault of a head, or the length of its body.
ghost use Rattle.std.specs.Prelude.{◌≡◌, ◌≤◌, ◌<◌, ◌^◌, length, map, true, false, All, IfErr, IfOk, MatchResult};
ghost use Rattle.httparse.specs.Spans.{IsHeaderWithin, header_bytes};
ghost use Rattle.http_wire.specs.Fields.{body_size as size_of_body, declared_length, has_bad_length};
ghost use Rattle.http_wire.specs.Heads.{IsFault};

use crate::Stop;
use crate::fields::{any_other, find_value, read_length};
use httparse::spans::HeaderSpan;

/// How many fields a head may have.
const MOST_FIELDS: usize = 64;

/// How many bytes a body may have.
const LONGEST_BODY: u64 = 4_194_304;

/// The number that the fields Content-Length agree on; an error where one is no number or two differ.
#[tactic(auto, using(crate::proofs::FieldLemmas::no_other, crate::proofs::FieldLemmas::bad_first))]
fn agreed_length(buf: &[u8], fields: &[HeaderSpan]) -> Result<Option<u64>, Stop>
    requires { All (IsHeaderWithin (length buf.now)) fields.now }
    ensures { MatchResult result
        (λ number. (has_bad_length (map (header_bytes buf.now) fields.now) ≡ false) × (number ≡ declared_length (map (header_bytes buf.now) fields.now)))
        (λ stop. (has_bad_length (map (header_bytes buf.now) fields.now) ≡ true) × (stop ≡ Stop.BadHead)) }
{
    match find_value(buf, fields, b"content-length") {
        None => Ok(None),
        Some(value) => match read_length(value) {
            None => Err(Stop::BadHead),
            Some(number) => {
                if any_other(buf, fields, number) {
                    Err(Stop::BadHead)
                } else {
                    Ok(Some(number))
                }
            }
        },
    }
}

/// How many bytes of body a head with this method and these fields has, or its first fault.
pub fn body_size(buf: &[u8], method: &[u8], fields: &[HeaderSpan]) -> Result<usize, Stop>
    requires { All (IsHeaderWithin (length buf.now)) fields.now }
    ensures bound { IfOk result (λ size. size ≤ 4194304) }
    ensures fault { IfErr result IsFault }
    ensures size { result ≡ size_of_body method.now (map (header_bytes buf.now) fields.now) }
{
    let declared = match agreed_length(buf, fields) {
        Ok(declared) => declared,
        Err(stop) => return Err(stop),
    };
    let size = declared.unwrap_or(0);
    if fields.len() > MOST_FIELDS || size > LONGEST_BODY {
        Err(Stop::TooLarge)
    } else if find_value(buf, fields, b"transfer-encoding").is_some() {
        Err(Stop::Encoded)
    } else if method == b"PUT".as_slice() && declared.is_none() {
        Err(Stop::NeedsLength)
    } else {
        Ok(size as usize)
    }
}

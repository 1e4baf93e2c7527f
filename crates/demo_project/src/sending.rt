//! One message, appended to those before it.
ghost use Rattle.std.specs.Prelude.{◌≡◌, ◌++◌, decimal, OnOk};
ghost use Rattle.http_wire.specs.Answers.{field_line};
ghost use Rattle.demo_project.specs.Requests.{bytes_of, message_line, sent};

use itoa::Buffer;
use mark_base::Memory;

/// Appends a text.
fn push_text(bytes: &mut Vec<u8>, text: &str) -> Result<(), Memory>
    ensures { OnOk result (bytes.new.items ≡ bytes.old.items ++ text.now) }
{
    bytes.extend_from_slice(text.as_bytes())?;
    Ok(())
}

/// Appends the first line of a message.
#[tactic(auto, unfolding(crate::specs::Requests::message_line))]
fn push_line(bytes: &mut Vec<u8>, method: &str, path: &str) -> Result<(), Memory>
    ensures { OnOk result (bytes.new.items ≡ bytes.old.items ++ message_line method.now path.now) }
{
    push_text(bytes, method)?;
    push_text(bytes, " ")?;
    push_text(bytes, path)?;
    push_text(bytes, " HTTP/1.1\r\n")?;
    Ok(())
}

/// Appends a field and the end of its line.
#[tactic(auto, unfolding(http_wire::specs::Answers::field_line))]
fn push_field(bytes: &mut Vec<u8>, name: &str, value: &str) -> Result<(), Memory>
    ensures { OnOk result (bytes.new.items ≡ bytes.old.items ++ field_line name.now value.now) }
{
    push_text(bytes, name)?;
    push_text(bytes, ": ")?;
    push_text(bytes, value)?;
    push_text(bytes, "\r\n")?;
    Ok(())
}

/// Appends a field whose value is a number.
fn push_number(bytes: &mut Vec<u8>, name: &str, number: u64) -> Result<(), Memory>
    ensures { OnOk result (bytes.new.items ≡ bytes.old.items ++ field_line name.now (decimal number)) }
{
    let mut buffer = Buffer::new();
    push_field(bytes, name, buffer.format(number))
}

/// Appends a message of a caller.
pub(crate) fn send(
    bytes: &mut Vec<u8>,
    caller: &str,
    method: &str,
    path: &str,
    body: &[u8],
) -> Result<(), Memory>
    ensures { OnOk result (bytes.new.items ≡ bytes.old.items ++ bytes_of (sent caller.now method.now path.now body.now)) }
{
    push_line(bytes, method, path)?;
    push_field(bytes, "Caller", caller)?;
    push_number(bytes, "Content-Length", body.len() as u64)?;
    push_text(bytes, "\r\n")?;
    bytes.extend_from_slice(body)?;
    Ok(())
}

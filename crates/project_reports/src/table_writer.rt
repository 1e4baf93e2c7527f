//! Writing CSV into memory.
ghost use Rattle.std.specs.Prelude.{◌≡◌, ◌++◌, map, IfOk, OnOk};
ghost use Rattle.agreement_report.specs.Report.{IsReady, row, text_of};

use csv::Writer;
use mark_base::{Bytes, Memory};

/// Writes a record. A vector takes all that there is memory for.
pub(crate) fn write_row(writer: &mut Writer<Vec<u8>>, fields: &[&[u8]]) -> Result<(), Memory>
    requires { IsReady writer.old }
    ensures ready { OnOk result (IsReady writer.new) }
    ensures written { OnOk result (text_of writer.new ≡ text_of writer.old ++ row (map (λ f. f.now) fields.now)) }
{
    match writer.write_fields(fields) {
        Ok(()) => Ok(()),
        Err(_) => Err(Memory),
    }
}

/// The bytes that a writer has written.
pub(crate) fn finish(writer: Writer<Vec<u8>>) -> Result<Bytes, Memory>
    ensures { IfOk result (λ bytes. bytes ≡ text_of writer) }
{
    match writer.into_inner() {
        Ok(text) => Ok(Bytes::from_vec(text)),
        Err(_) => Err(Memory),
    }
}

//! Reading annotation.conf.
ghost use Rattle.std.specs.Prelude.{◌≡◌, ◌≤◌, ◌<◌, ◌+◌, length, take, IfOk, IfErr, Ok, None};
ghost use Rattle.std.specs.Str.Lossy.{utf8_valid_len};
ghost use Rattle.conf_model.specs.ConfNames.{file_of};
ghost use Rattle.conf_model.specs.ConfOf.{conf_of};
ghost use Rattle.annotation_conf.specs.ReadFaults.{IsFault};
ghost use Rattle.annotation_conf.specs.FileShows.{Shows};

use crate::build::build;
use crate::faults::any_fault;
use crate::faults_macros::KnownMacros;
use crate::file::{File, read_file};
use crate::names_by_sort::KnownNames;
use conf_model::{Conf, ConfFault, ConfWhat};
use mark_base::{Memory, count_line_ends};
use std::alloc::Global;
use std::str;

/// The configuration of the file of a text, or its first fault.
fn conf_of_known(alloc: Global, text: &str, known: &KnownMacros) -> Result<Conf, ConfFault>
    requires file { known.now ≡ file_of text.now }
    requires short { length text.now ≤ 4194304 }
    ensures read { IfOk result (λ conf. conf_of text.now ≡ Ok conf) }
    ensures fault { IfErr result (IsFault text.now) }
{
    match any_fault(alloc, known)? {
        Some(fault) => Err(ConfFault::At {
            line: fault.line,
            what: fault.what,
        }),
        None => Ok(build(alloc, text, known)?),
    }
}

/// The names and the macros of the file of a text.
fn know_file<'a>(alloc: Global, text: &'a str, file: &'a File) -> Result<KnownMacros<'a>, Memory>
    requires { Shows file.now (file_of text.now) }
    ensures { IfOk result (λ known. known ≡ file_of text.now) }
{
    let names = KnownNames::of(alloc, text, file)?;
    KnownMacros::of(alloc, names)
}

/// The configuration that a text spells, or its first fault.
fn read_text(alloc: Global, text: &str) -> Result<Conf, ConfFault>
    requires { length text.now ≤ 4194304 }
    ensures read { IfOk result (λ conf. conf_of text.now ≡ Ok conf) }
    ensures fault { IfErr result (IsFault text.now) }
{
    let file = read_file(alloc, text)?;
    let known = know_file(alloc, text, &file)?;
    conf_of_known(alloc, text, &known)
}

/// Reads annotation.conf, of at most 4,194,304 bytes. The fault is the first of the file, and of those
/// on one line the first in the order of [`ConfWhat`]; bytes that are not UTF-8 come before all others.
/// Memory may run out at any time. Cost: the bytes, and the number of alternatives times the logarithm of
/// the number of types.
pub fn read_conf(alloc: Global, bytes: &[u8]) -> Result<Conf, ConfFault>
    requires { length bytes.now ≤ 4194304 }
    ensures read { IfOk result (λ conf. conf_of bytes.now ≡ Ok conf) }
    ensures fault { IfErr result (IsFault bytes.now) }
{
    match str::from_utf8(bytes) {
        Ok(text) => read_text(alloc, text),
        Err(error) => {
            let valid = error.valid_up_to();
            Err(ConfFault::At {
                line: count_line_ends(&bytes[..valid]) as u32 + 1,
                what: ConfWhat::NotUtf8,
            })
        }
    }
}

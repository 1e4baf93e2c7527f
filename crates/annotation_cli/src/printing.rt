//! Writing what a command found.
ghost use Rattle.std.specs.Prelude.{◌≡◌, ◌≢◌, IfErr, IsErrOf};
ghost use Rattle.mark_base.specs.Streams.{OnlyWrites, TellsFault};
ghost use Rattle.program_inputs.specs.declared.trouble.Trouble.{Trouble};
ghost use Rattle.annotation_cli.specs.Printing.{Prints};

use mark_base::{Bytes, Link, send_all};
use program_inputs::Trouble;

/// Writes the bytes that a command found to the console. Where it found none, nothing is written, and the run ends for the
/// same cause. After `WriteFault` the console has a front of the bytes. Cost: the bytes.
pub fn print_found<C: Link>(console: &mut C, found: Result<Bytes, Trouble>) -> Result<(), Trouble>
    ensures told { Prints found (C.held console.old) (C.held console.new) result }
    ensures only { (named : Trouble) → named ≢ Trouble.WriteFault → IsErrOf result named → IsErrOf found named }
    ensures came { (named : Trouble) → IsErrOf found named → IsErrOf result named }
    ensures apart { OnlyWrites C.left C.read_faults C.write_faults console.old console.new }
    ensures write { IfErr found (λ why. why ≢ Trouble.WriteFault) → TellsFault (IsErrOf result Trouble.WriteFault) (C.write_faults console.old) (C.write_faults console.new) }
{
    let bytes = match found {
        Ok(bytes) => bytes,
        Err(why) => return Err(why),
    };
    match send_all(console, bytes.items()) {
        Ok(()) => Ok(()),
        Err(_) => Err(Trouble::WriteFault),
    }
}

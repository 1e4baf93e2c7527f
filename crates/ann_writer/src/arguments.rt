//! The arguments of an E line.
ghost use Rattle.std.specs.Prelude.{◌≡◌, ◌++◌, ◌+◌, ◌<◌, ◌≤◌, ◌∷◌, [], length, slice_index, slice_set, vec_len, IfOk};
ghost use Rattle.std.specs.List.{All};
ghost use Rattle.mark_base.specs.declared.arguments.Arg.{Arg};
ghost use Rattle.conf_model.specs.Lookups.{roles_of};
ghost use Rattle.ann_writer.specs.Words.{argument_words, id_word, pair_word, role_spelling};

use crate::words::{id_word, pair_word, role_spelling};
use conf_model::Conf;
use mark_base::{Arg, Memory, Text, TypeId};
use std::alloc::Global;

/// Counts one more argument of a role, and tells how many there are now.
fn count_role(counts: &mut Vec<usize>, role: usize) -> usize
    requires within { role < vec_len counts.old }
    requires room { slice_index counts.old.items role < 18446744073709551615 }
    ensures count { result ≡ slice_index counts.old.items role + 1 }
    ensures counted { counts.new.items ≡ slice_set counts.old.items role (slice_index counts.old.items role + 1) }
{
    let count = counts[role] + 1;
    counts[role] = count;
    count
}

/// The word of an argument that is the k-th of its role.
fn argument_word(
    alloc: Global,
    conf: &Conf,
    event: TypeId,
    arg: &Arg,
    k: usize,
) -> Result<Text, Memory>
    ensures { IfOk result (λ made. made ≡ pair_word (role_spelling conf.now event.n arg.now.role k) (id_word arg.now.target)) }
{
    let role = role_spelling(alloc, conf, event, arg.role, k)?;
    let target = id_word(alloc, arg.target)?;
    pair_word(alloc, role.text(), target.text())
}

/// The arguments of an event. Cost: their number, and for each the number of roles.
pub(crate) fn argument_words(
    alloc: Global,
    conf: &Conf,
    event: TypeId,
    args: &[Arg],
) -> Result<Vec<Text>, Memory>
    requires { All (λ (arg : Arg). arg.role < length (roles_of conf.now event.n)) args.now }
    ensures { IfOk result (λ words. words.items ≡ argument_words conf.now event.n [] args.now) }
{
    let count = usize::from(conf.role_count(event));
    let mut counts = vec![in alloc; 0usize; count]?;
    let mut words = Vec::new(alloc);
    for arg in args {
        let k = count_role(&mut counts, usize::from(arg.role));
        words.push(argument_word(alloc, conf, event, arg, k)?)?;
    }
    Ok(words)
}

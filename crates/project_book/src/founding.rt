//! How a project begins.
ghost use Rattle.std.specs.Prelude.{◌≡◌, ◌⊎◌, ℕ, ◌≤◌, List, [], None, Some, IfErr, IfOk, IfSome, IsErrOf, OnErr, OnOk, false, length};
ghost use Rattle.std.specs.Arc.{arc_value};
ghost use Rattle.label_tracks.specs.Levels.{grouping_of};
ghost use Rattle.project_journal.specs.Keeper.{IsKeptOrOneMore};
ghost use Rattle.project_journal.specs.Stops.{LeavesOnly};
ghost use Rattle.project_machine.specs.Legal.{IsKept};
ghost use Rattle.project_machine.specs.Requests.{Founded};
ghost use Rattle.project_state.specs.Values.{happened_of};
ghost use Rattle.project_book.specs.Founding.{HasFailed, IsBeginning, IsCompleted, IsEntryMade, IsEntryRefusal, IsFoundRefusal, founded, founding_bytes, is_too_long, keeper_behind};
ghost use Rattle.project_book.specs.Keeping.{AreTables, TellsKeeper};

use crate::book::Book;
use crate::bounds::LONGEST_CONF;
use crate::found_fault::FoundFault;
use crate::history::History;
use annotation_conf::write_conf;
use conf_model::Conf;
use entry_bytes::entries_have_bytes;
use kappa_alpha::Tables;
use label_tracks::Groups;
use mark_base::{Bytes, Memory};
use project_journal::{Keeper, KeeperFault};
use project_state::{
    BookState, Change, Roster, Written, change_bytes, names_are_spelt, rosters_can_found,
    states_can_be_restored,
};
use std::alloc::Global;
use std::sync::Arc;

/// The level that stands for none.
const NO_LEVEL: u8 = 255;

/// What a project begins with, before its founding is kept.
#[derive(Drop)]
pub(crate) struct Beginning {
    pub(crate) state: BookState,
    pub(crate) groups: Groups,
    pub(crate) tables: Tables,
    pub(crate) log: History,
    pub(crate) entry: Bytes,
}

/// The founding at a level, 255 for none.
pub(crate) fn founding_change(conf: Arc<Conf>, roster: Roster, level: u8) -> Change
    ensures { happened_of result ≡ Founded (arc_value conf) level roster }
{
    if level == NO_LEVEL {
        Change::Found { conf, roster }
    } else {
        Change::FoundAt {
            conf,
            roster,
            level,
        }
    }
}

/// One more owner of a configuration.
pub(crate) fn share(conf: &Arc<Conf>) -> Result<Arc<Conf>, Memory>
    ensures { IfOk result (λ shared. arc_value shared ≡ arc_value conf.now) }
{
    let shared = conf.clone()?;
    Ok(shared)
}

/// A configuration that can be shared.
fn shared(alloc: Global, conf: Conf) -> Result<Arc<Conf>, Memory>
    ensures { IfOk result (λ shared. arc_value shared ≡ conf) }
{
    let shared = Arc::new(alloc, conf)?;
    Ok(shared)
}

/// The bytes of the founding of a state, where neither they nor the text of the configuration are too many.
fn founding_entry(
    alloc: Global,
    state: &BookState,
    conf: &Conf,
    change: &Change,
) -> Result<Bytes, FoundFault>
    requires { happened_of change.now ≡ Founded conf.now state.now.state.level state.now.state.people }
    ensures { IsEntryMade conf.now state.now.state.level state.now.state.people result }
{
    let text = write_conf(alloc, conf)?;
    let long = text.text().len() > LONGEST_CONF;
    match change_bytes(alloc, state, change)? {
        Written::TooLong(bytes) => Err(FoundFault::EntryTooLong(bytes)),
        Written::Bytes(entry) => {
            if long {
                Err(FoundFault::EntryTooLong(entry.items().len() as u64))
            } else {
                Ok(entry)
            }
        }
    }
}

/// The tables of a project without documents.
fn blank_tables(alloc: Global, state: &BookState, groups: &Groups) -> Result<Tables, Memory>
    requires kept { IsKept state.now.state }
    requires groups { groups.now ≡ grouping_of state.now.state.conf.types state.now.state.level }
    requires blank { state.now.state.documents ≡ [] }
    ensures { IfOk result (AreTables state.now.state) }
{
    let tables = Tables::new(alloc, state.annotator_count() as u8, groups.width())?;
    Ok(tables)
}

/// What a project begins with, at its state, with its founding as a change and as an entry.
pub(crate) fn complete(
    alloc: Global,
    state: BookState,
    change: &Change,
    entry: Bytes,
) -> Result<Beginning, Memory>
    requires kept { IsKept state.state }
    requires blank { state.state.documents ≡ [] }
    ensures { IfOk result (IsCompleted state.state change.now entry) }
{
    let groups = Groups::of(alloc, state.conf(), state.level())?;
    let tables = blank_tables(alloc, &state, &groups)?;
    let log = History::of(change);
    Ok(Beginning {
        state,
        groups,
        tables,
        log,
        entry,
    })
}

/// What a project begins with, or why it is not founded.
fn begin(alloc: Global, conf: Conf, roster: Roster, level: u8) -> Result<Beginning, FoundFault>
    ensures begun { IfOk result (IsBeginning conf level roster) }
    ensures refused { IfErr result (IsEntryRefusal conf level roster) }
{
    states_can_be_restored();
    rosters_can_found();
    names_are_spelt(roster.people());
    entries_have_bytes();
    conf.reads_back();
    let conf = shared(alloc, conf)?;
    let state = BookState::founded(alloc, share(&conf)?, roster.copy()?, level);
    let change = founding_change(share(&conf)?, roster, level);
    let entry = founding_entry(alloc, &state, &conf, &change)?;
    let beginning = complete(alloc, state, &change, entry)?;
    Ok(beginning)
}

impl<K: Keeper> Book<K> {
    /// Founds a project with a configuration and its people; types are compared as they stand. The same as `found_at`
    /// with the level 255.
    pub fn found(
        alloc: Global,
        keeper: K,
        conf: Conf,
        roster: Roster,
    ) -> Result<Book<K>, (K, FoundFault)>
        requires empty { IfSome (K.kept keeper) (λ told. told ≡ []) }
        requires certain { K.doubt keeper ≡ None }
        ensures log { IfOk result (λ book. book.log ≡ founded conf 255 roster) }
        ensures certain { IfOk result (λ book. K.doubt book.keeper ≡ None) }
        ensures fits { OnOk result (is_too_long conf 255 roster ≡ false) }
        ensures refused { IfErr result (λ back. IsFoundRefusal conf 255 roster back.1) }
        ensures given_back { IfErr result (λ back. K.kept back.0 ≡ K.kept keeper) }
        ensures doubt { IfErr result (λ back. (K.doubt back.0 ≡ None) ⊎ (K.doubt back.0 ≡ Some (founding_bytes conf 255 roster))) }
        ensures doubted { IfErr result (λ back. (K.doubt back.0 ≡ None) ⊎ (back.1 ≡ FoundFault.Keeper)) }
        ensures any_moment { K.kept keeper ≡ Some [] → LeavesOnly K.moment K.left_since keeper (keeper_behind result) (IsKeptOrOneMore [] None (founding_bytes conf 255 roster)) }
        ensures keeper { TellsKeeper K.faults K.faultless keeper (keeper_behind result) (HasFailed result) }
    {
        Self::found_at(alloc, keeper, conf, roster, NO_LEVEL)
    }

    /// Founds a project with a configuration, its people, and the level of the tree of types at which types are
    /// compared: 0 to 254, or 255 for none. The founding is kept first. A refusal gives the keeper back with the
    /// entries that it had. Cost, not measured: the text of the configuration twice, the bytes of the entry, and the counts
    /// of two labels for each two annotators. Behind `Keeper`, and there alone, a stop may still leave the founding.
    pub fn found_at(
        alloc: Global,
        keeper: K,
        conf: Conf,
        roster: Roster,
        level: u8,
    ) -> Result<Book<K>, (K, FoundFault)>
        requires empty { IfSome (K.kept keeper) (λ told. told ≡ []) }
        requires certain { K.doubt keeper ≡ None }
        ensures log { IfOk result (λ book. book.log ≡ founded conf level roster) }
        ensures certain { IfOk result (λ book. K.doubt book.keeper ≡ None) }
        // The founding is too long for a journal, or the keeper failed, or memory ran out.
        ensures fits { OnOk result (is_too_long conf level roster ≡ false) }
        ensures refused { IfErr result (λ back. IsFoundRefusal conf level roster back.1) }
        ensures given_back { IfErr result (λ back. K.kept back.0 ≡ K.kept keeper) }
        // In doubt is at most the founding, and behind `Keeper` alone.
        ensures doubt { IfErr result (λ back. (K.doubt back.0 ≡ None) ⊎ (K.doubt back.0 ≡ Some (founding_bytes conf level roster))) }
        ensures doubted { IfErr result (λ back. (K.doubt back.0 ≡ None) ⊎ (back.1 ≡ FoundFault.Keeper)) }
        // What a stop at any moment of the call leaves: nothing, or the founding.
        ensures any_moment { K.kept keeper ≡ Some [] → LeavesOnly K.moment K.left_since keeper (keeper_behind result) (IsKeptOrOneMore [] None (founding_bytes conf level roster)) }
        // `Keeper` is answered only where the keeper counted a fault.
        ensures keeper { TellsKeeper K.faults K.faultless keeper (keeper_behind result) (HasFailed result) }
    {
        let mut keeper = keeper;
        let beginning = match begin(alloc, conf, roster, level) {
            Ok(beginning) => beginning,
            Err(fault) => return Err((keeper, fault)),
        };
        let Beginning {
            state,
            groups,
            tables,
            log,
            entry,
        } = beginning;
        match keeper.append(entry.items()) {
            Ok(()) => Ok(Book {
                alloc,
                state,
                groups,
                tables,
                log,
                keeper,
            }),
            Err(KeeperFault::Failed) => Err((keeper, FoundFault::Keeper)),
            Err(KeeperFault::Memory) => Err((keeper, FoundFault::Memory)),
        }
    }
}

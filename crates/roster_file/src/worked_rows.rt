//! Roster files worked out by hand.
ghost use Rattle.std.specs.Prelude.{◌≡◌, codes, Err};
ghost use Rattle.project_machine.specs.declared.roster_fault.RosterFault.TheVariants as fault;
ghost use Rattle.roster_file.specs.declared.roster_read.RosterRead.TheVariants as read;
ghost use Rattle.roster_file.specs.RosterFiles.{roster_of};

/// What the definition gives of files worked out by hand. It does nothing when it runs.
pub fn examples_of_roster_files()
    ensures bad_role { roster_of (codes "ann,annotator\nbob,boss\n") ≡ Err (read.BadRole 2) }
    ensures no_curator { roster_of (codes "ann,annotator\n") ≡ Err (read.Roster fault.Lacking) }
    ensures bad_row { roster_of (codes "ann,annotator,1\n,boss\n") ≡ Err (read.BadRow 1) }
    ensures bad_name { roster_of (codes ".ann,boss\n") ≡ Err (read.BadName 1) }
{}

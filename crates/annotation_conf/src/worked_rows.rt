//! The definition of a configuration at work: files that it reads, and the faults of others. Each
//! function does nothing; its clauses are computed when the crate is checked.
ghost use Rattle.std.specs.Prelude.{◌≡◌, [], ◌∷◌, ◌++◌, Ok, Err, codes, true, false};
ghost use Rattle.conf_model.specs.ConfOf.{conf_of};
ghost use Rattle.conf_model.specs.ConfText.{conf_text};
ghost use Rattle.conf_model.specs.Lookups.{category_of, categories_of, relation_admits, role_admits, attribute_admits_relation, overlap_allowed};
ghost use Rattle.annotation_conf.specs.WorkedFiles.{FaultAt, meetings, meetings_file, meetings_text, macros, macros_file, macros_text, types_file};

use conf_model::ConfWhat;
use mark_base::OvlKind;

/// Two files are read as they say, and each configuration is written as its canonical text, which is
/// read back as the same configuration.
pub fn files_are_read()
    ensures meetings { conf_of meetings_file ≡ Ok meetings }
    ensures meetings_written { conf_text meetings ≡ meetings_text }
    ensures meetings_again { conf_of meetings_text ≡ Ok meetings }
    ensures macros { conf_of macros_file ≡ Ok macros }
    ensures macros_written { conf_text macros ≡ macros_text }
    ensures macros_again { conf_of macros_text ≡ Ok macros }
{}

/// What the two configurations answer: a role admits descendants, a relation type admits by any of its
/// lines, an attribute may be set on relations, an overlap is allowed either way round, and categories
/// number the usable types.
pub fn configurations_answer()
    ensures descendant { role_admits meetings 4 0 (record { n = 1 }) ≡ true }
    ensures no_descendant { role_admits meetings 4 0 (record { n = 3 }) ≡ false }
    ensures second_line { relation_admits macros 0 (record { n = 1 }) (record { n = 2 }) ≡ true }
    ensures no_line { relation_admits macros 0 (record { n = 2 }) (record { n = 2 }) ≡ false }
    ensures on_relations { attribute_admits_relation macros 0 0 ≡ true }
    ensures contains { overlap_allowed macros (record { n = 0 }) (record { n = 1 }) OvlKind.Contains ≡ true }
    ensures no_overlap { overlap_allowed macros (record { n = 2 }) (record { n = 2 }) OvlKind.Cross ≡ false }
    ensures category { category_of meetings (record { n = 5 }) ≡ 5 }
    ensures no_category { category_of meetings (record { n = 0 }) ≡ 0 }
    ensures categories { categories_of meetings ≡ 6 }
{}

/// Each fault comes at its line, before a fault of a later line and before one of a greater number on
/// the same line.
pub fn faults_are_told()
    ensures not_utf8 { FaultAt (codes "[entities]\nA\n" ++ 255 ∷ []) 3 ConfWhat.NotUtf8
        × FaultAt (codes "[entites]\n" ++ 195 ∷ []) 2 ConfWhat.NotUtf8
        × FaultAt (codes "" ++ 128 ∷ 10 ∷ []) 1 ConfWhat.NotUtf8 }
    ensures unknown_section { FaultAt (codes "[entites]\n") 1 ConfWhat.UnknownSection
        × FaultAt (codes "[entities]\nA\n[]\n") 3 ConfWhat.UnknownSection
        × FaultAt (codes "[entities]\n[sections]\nA\nA\n") 2 ConfWhat.UnknownSection }
    ensures section_twice { FaultAt (codes "[entities]\nA\n[entities]\n") 3 ConfWhat.SectionTwice
        × FaultAt (codes "[entities]\n[events]\n[relations]\n[events]\n") 4 ConfWhat.SectionTwice
        × FaultAt (codes "# c\n[entities]\n\n[entities]\nA\nA\n") 4 ConfWhat.SectionTwice }
    ensures section_missing { FaultAt (codes "") 1 ConfWhat.SectionMissing
        × FaultAt (codes "[events]\n") 2 ConfWhat.SectionMissing
        × FaultAt (codes "# only this\n\n---\n") 4 ConfWhat.SectionMissing }
    ensures outside_section { FaultAt (codes "A\n[entities]\n") 1 ConfWhat.OutsideSection
        × FaultAt (codes "<X>=A\nB\n[entities]\nA\n") 2 ConfWhat.OutsideSection
        × FaultAt (codes "[entities] \nA\n") 1 ConfWhat.OutsideSection }
    ensures bad_indent { FaultAt (codes "[entities]\nA\n\t\tB\n") 3 ConfWhat.BadIndent
        × FaultAt (codes "[entities]\n\tA\n") 2 ConfWhat.BadIndent
        × FaultAt (codes "[entities]\nA\n A:\n") 3 ConfWhat.BadIndent }
    ensures bad_name { FaultAt (codes "[entities]\nA:B\n") 2 ConfWhat.BadName
        × FaultAt (codes "[entities]\n[x\n") 2 ConfWhat.BadName
        × FaultAt (codes "[entities]\nA\nB\n[events]\nM\tWho:A|\n") 5 ConfWhat.BadName }
    ensures name_twice { FaultAt (codes "[entities]\nPerson\nPerson\n") 3 ConfWhat.NameTwice
        × FaultAt (codes "[entities]\nA\nB\n[events]\nA\tWho{0}:C\n") 5 ConfWhat.NameTwice
        × FaultAt (codes "<ENTITY>=A\n[entities]\nA\nB\n") 1 ConfWhat.NameTwice }
    ensures bad_count { FaultAt (codes "[entities]\nA\nB\n[events]\nM\tWho{0}:A\n") 5 ConfWhat.BadCount
        × FaultAt (codes "[entities]\nA\nB\n[events]\nM\tWho{3-2}:C\n") 5 ConfWhat.BadCount
        × FaultAt (codes "[entities]\nA\nB\n[events]\nM\tWho?+:A\n") 5 ConfWhat.BadCount }
    ensures bad_argument { FaultAt (codes "[entities]\nA\nB\n[events]\nM\tWho\n") 5 ConfWhat.BadArgument
        × FaultAt (codes "[entities]\nA\nB\n[relations]\nR\tX:A\n") 5 ConfWhat.BadArgument
        × FaultAt (codes "[entities]\nA\nB\n[attributes]\nN\tValue:x, Arg:A\n") 5 ConfWhat.BadArgument }
    ensures unknown_type_named { FaultAt (codes "[entities]\nA\nB\n[events]\nM\tWho:C\n") 5 ConfWhat.UnknownTypeNamed
        × FaultAt (codes "<X>=C\n[entities]\nA\nB\n") 1 ConfWhat.UnknownTypeNamed
        × FaultAt (codes "<X>=R\n[entities]\nA\nB\n[relations]\nR\tX:A, Y:B\n[events]\nM\tWho:<X>\n") 8 ConfWhat.UnknownTypeNamed }
    ensures unknown_macro { FaultAt (codes "[entities]\nA\nB\n[events]\nM\tWho:<X>\n") 5 ConfWhat.UnknownMacro
        × FaultAt (codes "<X>=<Y>\n<Y>=A\n[entities]\nA\nB\n") 1 ConfWhat.UnknownMacro
        × FaultAt (codes "<X>=<RELATION>\n[entities]\nA\nB\n[events]\nM\tWho:<X>\n") 6 ConfWhat.UnknownMacro }
    ensures too_many_types { FaultAt (types_file 64) 65 ConfWhat.TooManyTypes }
{}

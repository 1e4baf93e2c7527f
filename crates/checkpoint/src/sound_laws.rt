//! Laws of the reading of checkpoints. Each function but for calls of laws below does nothing; its contract is the law.
ghost use Rattle.checkpoint.specs.SoundLaws.{CheckpointsHaveNoFault, CheckpointsTellOne, FaultIsOne, FirstLeavesOne, NextLeavesOne, PiecesHaveNoFault, PiecesTellOne, SoundStatesHaveCheckpoints};

use ann_writer::written_layers_are_utf8;
use annotation_conf::sound_configurations_are_read_back;
use command_bytes::{
    accepted_scripts_can_be_written, loads_are_read_again, scripts_are_told_apart,
    typed_scripts_are_read_again,
};
use entry_bytes::entries_are_told_apart;
use layer_rules::unflawed_layers;

/// Each piece leaves one thing: its bytes say which layer, which commands and which verdicts it holds. So a checkpoint
/// tells one project, no checkpoint begins with another, and one entry at most is the first at fault.
pub fn pieces_are_read_in_one_way()
    ensures first { FirstLeavesOne }
    ensures next { NextLeavesOne }
    ensures whole { CheckpointsTellOne }
    ensures fault { FaultIsOne }
{
    entries_are_told_apart();
    sound_configurations_are_read_back();
    loads_are_read_again();
    typed_scripts_are_read_again();
    scripts_are_told_apart();
    accepted_scripts_can_be_written();
    unflawed_layers();
}

/// The pieces of each project that can be restored are a checkpoint, which tells it.
pub fn sound_states_have_checkpoints()
    ensures { SoundStatesHaveCheckpoints }
{
    sound_configurations_are_read_back();
    written_layers_are_utf8();
}

/// No entry is at fault where entries begin with a checkpoint; so none of the pieces of a project that can be restored
/// is, and no two such projects have the same pieces.
pub fn checkpoints_have_no_fault()
    ensures checkpoints { CheckpointsHaveNoFault }
    ensures pieces { PiecesHaveNoFault }
    ensures apart { PiecesTellOne }
{
    entries_are_told_apart();
    sound_configurations_are_read_back();
    loads_are_read_again();
    typed_scripts_are_read_again();
    scripts_are_told_apart();
    accepted_scripts_can_be_written();
    unflawed_layers();
    sound_states_have_checkpoints();
}

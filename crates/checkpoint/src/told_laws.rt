//! What the entries of a checkpoint are. The function but for a call of a law below does nothing; its contract is the law.
ghost use Rattle.checkpoint.specs.ToldLaws.{CheckpointsArePieces};

use layer_rules::unflawed_layers;

/// The entries of a checkpoint are the pieces of the project that it tells, in their order, and no others.
pub fn checkpoints_are_pieces()
    ensures { CheckpointsArePieces }
{
    unflawed_layers();
}

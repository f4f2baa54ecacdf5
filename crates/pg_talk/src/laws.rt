//! A law of what is read: the function does nothing, and its contract is the law.
ghost use Rattle.pg_talk.specs.ReadingLaws.{FramesAreRead};

/// Terms that are written in frames, one after another, are read as their inputs.
#[tactic(auto, using(crate::proofs::FramesRead::frames_are_read))]
pub fn frames_are_read()
    ensures { FramesAreRead }
{}

//! The laws of the partition list, each the contract of a function that does nothing.
ghost use Rattle.partitions.specs.Answer.{AnswerNumber};
ghost use Rattle.partitions.specs.RightList.{RightMeans};
ghost use Rattle.partitions.specs.EntryParts.{EntryParts, ImageIsPart};

/// The test of a list is the test of exactly its rules.
#[tactic(auto, using(crate::proofs::RightMeans::right_means))]
pub fn right_means()
    ensures { RightMeans }
{}

/// Each entry of a right list has exactly its part of the flash, as the part of its app, and the image of an app is that part's bytes.
#[tactic(auto, using(crate::proofs::EntryParts::entry_parts, crate::proofs::EntryParts::image_is_part))]
pub fn entry_parts()
    ensures parts { EntryParts }
    ensures images { ImageIsPart }
{}

/// The number of a tested list's answer is the number that the call replies.
#[tactic(auto, using(crate::proofs::Answers::answer_number))]
pub fn answer_number()
    ensures { AnswerNumber }
{}

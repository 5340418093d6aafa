//! What holds of the check: each law is proved, and nothing here does anything.
ghost use Rattle.app_image.specs.Laws.{AcceptedFits, AcceptedDigest, AcceptedWithin, TailIgnored, HeadDecides, AnswerLaw};
ghost use Rattle.app_image.specs.Example.{OneSegmentAccepted, OneSegmentEnds, OneSegmentLayout, OddLengthRefused, ThirteenSegmentsLayout};

/// An accepted image is for the board, has the right digest, lies within its bytes, and is followed by bytes that don't matter.
#[tactic(auto, using(crate::proofs::Acceptance::accepted_fits, crate::proofs::Acceptance::accepted_digest, crate::proofs::Acceptance::accepted_within, crate::proofs::Tail::tail_ignored))]
pub fn accepted_images()
    ensures fits { AcceptedFits }
    ensures digest { AcceptedDigest }
    ensures within { AcceptedWithin }
    ensures tail_ignored { TailIgnored }
{}

/// The first 40 bytes of an image decide the tests of the header, and with the image's ending those after the segments and the facts.
#[tactic(auto, using(crate::proofs::Head::head_decides))]
pub fn head_decides()
    ensures { HeadDecides }
{}

/// The number and the values of an answer, of an accepted image and of a refused one; its number is that of the reply.
#[tactic(auto, using(crate::proofs::Examples::answer_law))]
pub fn answer_law()
    ensures { AnswerLaw }
{}

/// The worked examples of an image.
#[tactic(auto, using(crate::proofs::Examples::one_segment_accepted, crate::proofs::Examples::one_segment_ends, crate::proofs::Examples::one_segment_layout, crate::proofs::Examples::odd_length_refused, crate::proofs::Examples::thirteen_segments_layout))]
pub fn examples()
    ensures one_segment { OneSegmentAccepted }
    ensures one_segment_ends { OneSegmentEnds }
    ensures one_segment_layout { OneSegmentLayout }
    ensures odd_length { OddLengthRefused }
    ensures thirteen_segments { ThirteenSegmentsLayout }
{}

//! What holds of the answers.
ghost use Rattle.update.specs.Answer.{AnswerLaw};

/// The number of every reply, and where its values stand.
#[tactic(auto, using(crate::proofs::Answers::answer_law))]
pub fn answers_are_in_numbers()
    ensures { AnswerLaw }
{}

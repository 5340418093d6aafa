//! What holds of the definitions, beside what each function promises.
ghost use Rattle.boot.specs.Answer.{AnswerLaw};
ghost use Rattle.boot.specs.Examples.{BootExamples};

/// The number and the values of each reply.
#[tactic(auto, using(crate::proofs::Answers::answer_law))]
pub fn answer_law()
    ensures { AnswerLaw }
{}

/// The definitions on examples: a fall back, the last search, the register, and which nodes boot accepts.
#[tactic(auto, using(crate::proofs::Examples::boot_examples))]
pub fn boot_examples()
    ensures { BootExamples }
{}

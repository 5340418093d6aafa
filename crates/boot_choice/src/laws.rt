//! What holds of the definitions, beside what each function promises.
ghost use Rattle.boot_choice.specs.Parts.{SameTests};
ghost use Rattle.boot_choice.specs.Example.{ExampleNode};

/// `accept` accepts and refuses exactly as `Node::new` does.
#[tactic(auto, using(crate::proofs::SameTests::same_tests))]
pub fn same_tests()
    ensures { SameTests }
{}

/// A node with two slots, each of which passes.
#[tactic(auto, using(crate::proofs::Examples::example_is_so))]
pub fn example_node()
    ensures { ExampleNode }
{}

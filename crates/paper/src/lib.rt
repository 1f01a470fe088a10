// The session on paper: the specification's examples as one statement, every premise of the bundle's promises met, and wrong answers that
// they rule out. All of it computes; it has no code: `promised` carries it as a contract.
#![tactic(auto)]

ghost use Rattle.paper.specs.Examples.{Examples};

fn promised()
    ensures { Examples }
{}

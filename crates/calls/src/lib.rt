// What each call answers and leaves, of any plan, state, length, bytes and buffers, reached or not, in the specification's words and numbers.
// Statements in specs/, theorems in proofs/; it has no code: `promised` carries the theorems as a contract.
#![tactic(auto)]

ghost use Rattle.calls.specs.Table.{Table};
ghost use Rattle.calls.specs.Outcomes.{Outcomes};
ghost use Rattle.calls.specs.Frame.{Frame};
ghost use Rattle.calls.specs.Edges.{Edges};

fn promised()
    ensures { Table × Outcomes × Frame × Edges }
{}

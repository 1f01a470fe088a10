// The theory of the bundle: definitions in specs/, theorems in proofs/. It knows nothing of records, rings or bytes on the wire,
// and has no code: `promised` carries the theorems as a contract.
#![tactic(auto)]

ghost use Rattle.theory.specs.Sending.{Plan};
ghost use Rattle.theory.specs.Demands.{Sound, Promises};
ghost use Rattle.theory.specs.FarEnd.{FarEnd};

fn promised()
    ensures { (p : Plan) → Sound p → Promises p × FarEnd p }
{}

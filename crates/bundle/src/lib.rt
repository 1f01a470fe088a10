// Both ends together: what the demands promise of every history of calls. Definitions in specs/, theorems in proofs/; it has no code:
// `promised` carries the theorems as a contract.
#![tactic(auto)]

ghost use Rattle.std.specs.Prelude.{ℕ, List};
ghost use Rattle.plan.specs.declared.Plan.{Plan};
ghost use Rattle.bundle.specs.AnyState.{RefusedChangesNothing, ValidStaysValid};
ghost use Rattle.bundle.specs.Words.{Opens};
ghost use Rattle.bundle.specs.Demands.{Promises};
ghost use Rattle.bundle.specs.Running.{RunIsTakes};
ghost use Rattle.bundle.specs.Booth as booth;
ghost use Rattle.bundle.specs.Queues as queues;

fn promised()
    ensures { RefusedChangesNothing × ValidStaysValid × RunIsTakes × booth.EveryHistory × queues.EveryHistory × ((p : Plan) (size : ℕ) (store : List ℕ) → Opens p size store → Promises p size store) }
{}

// Results that are known beforehand, proved of the definitions that the contracts cite.
#![tactic(auto)]

ghost use Rattle.known.specs.Results.{Known};

// Every known result comes out as told.
#[tactic(auto, using(crate::proofs::Runs::all_known))]
pub fn known_results()
    ensures { Known }
{}

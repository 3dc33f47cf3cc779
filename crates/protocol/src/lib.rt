// The protocol of a swap, and the law that is proved of it. The model is in specs/, the proof in proofs/.
// Each function does nothing: its contract is a theorem, so that the check asks for its proof.
#![tactic(auto)]

ghost use Rattle.protocol.specs.Law.{Law, Histories, Total, Single, Tests, Rules, Begins, Nevers, Pools, Holdings};
ghost use Rattle.swap.specs.Swaps.{Swap};

// After every call the promises hold: if all conform each leg is paid in full; a conforming party that paid has been paid in
// full; what it put up is paid or back, and its stock has fallen by no more than the legs it paid.
#[tactic(auto, using(crate::proofs::Law::law))]
pub fn the_law()
    ensures { Law }
{}

// In any list of calls the promises hold after each, and paid and back are final.
#[tactic(auto, using(crate::proofs::Law::histories))]
pub fn histories_are_lawful()
    ensures { Histories }
{}

// Every call has an answer, and only one.
#[tactic(auto, using(crate::proofs::Attained::total, crate::proofs::Reach::single))]
pub fn one_answer()
    ensures some { Total }
    ensures only { Single }
{}

// What conforming parties file in their order is what the rules allow and ask; the tests of the rules say what they are named for.
#[tactic(auto, using(crate::proofs::Law::rules, crate::proofs::Meanings::tests_meant))]
pub fn rules_are_kept()
    ensures order { Rules }
    ensures tests { (p : Swap) → Tests p }
{}

// A conforming party never puts itself in front of a route that it is on; its opens, a release, a journal line, a waiting
// transaction and a holding are never refused; a swap begins with its holdings.
#[tactic(auto, using(crate::proofs::Law::never))]
pub fn nothing_is_refused()
    ensures never { Nevers }
    ensures waiting { Pools }
    ensures holdings { Holdings }
    ensures begins { Begins }
{}

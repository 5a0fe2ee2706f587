// All that is promised of the calls, on one page: specs/Demands.antt; that it holds: proofs/Demands.antt. Inputs that meet the hypotheses stand
// beside it and in proofs/ of routing.
#![tactic(auto)]

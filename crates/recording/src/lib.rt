// The claims about whole lists of calls: specs/ states them, over the contracts of the calls, and proofs/ proves them.
#![tactic(auto)]

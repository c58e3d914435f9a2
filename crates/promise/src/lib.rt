// The promise of demand 3, theorems alone: Promise states it, for any test and any machine; Demand proves it of document 01's machine and its two
// tests, FixedPromise of request 4's machine and its test; Refuted and FixedRefuted show what breaks it. The files between hold for any order of
// priority, but for DeadlineOrder, NumberOrder and what says `ahead` or `lower`. Load, Waiting, SlotChoice and Schedule are the argument on plain
// numbers that a packet is done in time; Within adds what only document 01's order has, ByNumber what only request 4's has.
// What the promise says stands in `specs/`; a theorem that a must-fail edit refuses, what follows from it and records that only these use stand in `proofs/`.
#![tactic(auto)]

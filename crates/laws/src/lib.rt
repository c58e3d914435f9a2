// Theorems alone, in `specs/`: laws of document 01's definitions that several crates use. Sums, lists, nodes of a route, radio channels, lists
// filled up; what an accepted set has, what `used` keeps, a refusal by its code; the equation's value, what the rounds of the tightened test
// reach and how many they are, and what document 01 says of the two tests' answers.
#![tactic(auto)]

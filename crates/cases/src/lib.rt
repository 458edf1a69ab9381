// The worked cases K1 to K13 of document 01 stand in specs/Cases, with one claim: each holds of the outcome that its call has. What two calls in a row leave
// stands in proofs/Calls, and which wrong programs the contract of a split rules out by K10 in proofs/Wrong. There is no code here.
#![tactic(auto)]

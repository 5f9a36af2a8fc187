// The exact rules' sixteen figures and the user's three demands, held against the promises of the crates below. It has no code: what is stated and proved
// stands in specs/.
#![tactic(auto)]

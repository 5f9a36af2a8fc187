// The mathematics of one cubic piece. It has no code: its definitions and laws stand in specs/, over whole numbers of any size and any
// slope unit, for the crates above to cite.
#![tactic(auto)]

// Whole numbers as floats. It has no code: what it is for a float to be a whole number exactly, and the laws of sums and products of such floats,
// stand in specs/, for 32 and for 64 bits alike.
#![tactic(auto)]

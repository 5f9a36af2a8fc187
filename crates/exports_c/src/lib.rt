// The library that a C program links: each function of `exports` under its own name, by the C calling convention, with the same clauses. Lists cross
// as a pointer and a length, and records by value. `include/negwafir.h` says all this to the C programmer.
#![tactic(auto)]

mod answers;
mod numbers;
mod tables;
mod text;

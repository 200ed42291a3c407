// The static library of the benchmark: the functions of marks that it times, under the same clauses.
#![tactic(auto)]

pub mod by_one;

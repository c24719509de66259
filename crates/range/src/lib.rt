// Sums, counts, searches and lists over the numbers below a number: definitions and laws alone, no code.
#![tactic(auto)]

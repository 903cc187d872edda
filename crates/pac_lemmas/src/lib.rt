//! Lemmas of numbers, lists and truth values, which cite no word of the machine.
#![tactic(auto)]

//! Finite maps as values: lemmas alone. What a table of entries, or a function below a bound, is as a map.
#![tactic(auto)]

// Theorems about the questions as a whole; no code. Each stands on the questions' promises alone.
#![tactic(auto)]

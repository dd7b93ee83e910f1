// What the questions period, lags at a period and best period promise, and laws of these promises; no code.
#![tactic(auto)]

// Demand 3: one theorem about two whole lists of calls, and no code.
#![tactic(auto)]

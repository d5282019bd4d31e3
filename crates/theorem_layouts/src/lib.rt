// What is true of every layout that `new` makes: bounds, and no NaN. Definitions and laws; it has no code.
#![tactic(auto)]

// What a list of calls leaves, told from the arguments alone: definitions, and no code.
#![tactic(auto)]

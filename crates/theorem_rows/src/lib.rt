// Rows of a layout that `new` makes: finite throughout, and +0 in LFE slots. Definitions and laws; it has no code.
#![tactic(auto)]

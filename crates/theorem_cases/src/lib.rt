// Document 01, "Proving ground": the cases marked * as one statement about one table of the definitions, and no code.
#![tactic(auto)]

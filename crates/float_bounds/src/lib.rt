// Bounds of what the operations and the stand-ins compute, over exact whole numbers, as laws that other crates cite. It has no code.
#![tactic(auto)]

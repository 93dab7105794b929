#![tactic(auto)]

// Definitions and laws on lists that the layers above cite. All of it is in specs/: there is no code here.

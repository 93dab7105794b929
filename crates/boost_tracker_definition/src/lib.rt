// The definition of a frame of the tracker, and the laws that the layers above cite. All of it is in specs/: there is no code here.
#![tactic(auto)]

// What the change to a second deck says of a module that comes and goes, sentence by sentence, over the definitions that the contracts of the
// crate filling cite. There is no code here.

#![tactic(auto)]

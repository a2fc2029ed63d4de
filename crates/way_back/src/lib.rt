// Nothing runs here: what a sheet that is written out comes back as.
#![tactic(auto)]

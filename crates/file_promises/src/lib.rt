// Nothing runs here: what sheet files promise, those written and read back, and those from a stranger.
#![tactic(auto)]

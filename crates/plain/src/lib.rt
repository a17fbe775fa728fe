// The protocol's types are plain, so that the walks may carry their values into and out of lent memory. It has no code.
#![tactic(auto)]

#![tactic(auto)]

// Closed series of calls, computed: demand 3 speaks of uploads that there are. No code.

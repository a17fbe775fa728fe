#![tactic(auto)]

// The bench card's rows marked P, computed from the definitions. No code.

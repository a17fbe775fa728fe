#![tactic(auto)]

// Clients, records and tables as bytes: the layout, what fits it, and the round trip (specs, proofs).

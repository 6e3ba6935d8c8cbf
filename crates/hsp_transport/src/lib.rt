// The theory of the transportation problem with hosts (Ahuja, Magnanti and Orlin, Network Flows, chapters 1, 6 and 9):
// networks, flows, prices and cuts, and what they show of each other. The solver and the checker share these
// definitions and lemmas, and no code.
#![tactic(auto)]

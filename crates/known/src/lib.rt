// No code: plans and edges with known answers, computed by the checker from the definitions alone. They stand apart from the crates whose
// definitions they compute with, so that a must-fail edit there does not compute them again.
#![tactic(auto)]

#![tactic(auto)]

// Why the manager answers as the machine of private memories does: a relation between the two that every call keeps.

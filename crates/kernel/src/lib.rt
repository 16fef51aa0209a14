#![tactic(auto)]

// No code: the words in which inner functions promise each other equivalences, as kernels of functions. No public contract cites them.

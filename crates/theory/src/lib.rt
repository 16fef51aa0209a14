// No code: what Generate, Contained, Separate, Decompose and Certify mean, in specs/, and laws over these definitions alone, in proofs/.
#![tactic(auto)]

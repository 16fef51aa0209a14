// No code: what each call of the bench and each conversion promises, and what calls made one after the other come to, in specs/; the laws and theorems of
// it, in proofs/.
#![tactic(auto)]

// How large the steps of the kernels can grow, and that no answer within the gates is a NaN; that the
// arctangents are odd to the bit, and between which numbers they, cos and sin lie. Definitions in
// specs/, laws in proofs/, no code. `guard`, `soft`, `grain` and `strip` cite them.
#![tactic(auto)]

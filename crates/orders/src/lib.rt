// No code: chains, cycles, admission and orders over any relation of page indexes in specs/, their laws in proofs/.
#![tactic(auto)]

// No code: what the services are claimed to do stands in specs/ and is proved in proofs/.
#![tactic(auto)]

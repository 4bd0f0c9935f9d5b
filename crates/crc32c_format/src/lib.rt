// No code: specs/ has the definition of CRC-32C and the laws of it that other crates cite.
#![tactic(auto)]

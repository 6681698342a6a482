// Bit fields packed into 64-bit words. There is no code: the laws are in specs/.
#![tactic(auto)]

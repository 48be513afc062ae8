// What an iterator chain counts and finds, in the words of rank, count and select: proofs/ alone. No code.
#![tactic(auto)]

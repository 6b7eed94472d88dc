//! That signatures, maps, faces and verdicts may cross threads. It holds lemmas alone.
#![tactic(auto)]

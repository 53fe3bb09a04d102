// The theorem that how well a block is decoded does not depend on the message sent: one statement, from samples to
// marks, for any front that is odd in its samples, and so for one antenna and for two. And that a frozen position is
// right in every run.
// It sees the definitions that the contracts of coder, fronts and decoder cite, and their laws. It has no function:
// what the theorem says is in specs/, the theorem itself in proofs/, where an edit of a definition shows that it falls.
#![tactic(auto)]

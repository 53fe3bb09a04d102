// The theorem that criteria 2 and 4 give equal answers: of the decoder, of a tallied call, of a call for a radio, of
// the report, and of the C functions that decode.
// It sees the definitions that their contracts cite, and their laws. It has no function: what the theorems say is in
// specs/, the theorems themselves in proofs/, where an edit of a definition shows that they fall.
#![tactic(auto)]

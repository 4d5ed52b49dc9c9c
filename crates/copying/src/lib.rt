// No code: the copier's call as definitions over the reader's machine, the laws of its turns, and that no byte is lost or made up.

#![tactic(auto)]

// No code: what else holds of one call of the copier, from any sound state on, for a message given whole, and for what is in its
// shortest form.

#![tactic(auto)]

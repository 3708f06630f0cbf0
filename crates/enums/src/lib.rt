// The enums of the commands and the table: a field takes just the codes of its enum, and the plain builder by number gives what the typed
// builder gives. It has no code: specs/Values.antt says what each argument is, specs/Enums.antt which values and codes an enum has, and
// proofs/ has the laws.
#![tactic(auto)]

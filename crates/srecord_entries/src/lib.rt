// The round trip over the entry: a reader by the public definition gives back, of the lines that an accepted call of `write_srecords` leaves, each section's joined bytes. No code.
#![tactic(auto)]

// What a console links beside host: the two entries over a table of eight call records.
#![tactic(auto)]

mod table;

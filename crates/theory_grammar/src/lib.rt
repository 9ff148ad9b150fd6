// No code: the parser of netlist texts is right. What it accepts is the grammar, it refuses at the first byte that no
// legal text has there, and what is written is read back.
#![tactic(auto)]

// Text as the bytes that code reads and writes: definitions in specs/, and no code.
#![tactic(auto)]

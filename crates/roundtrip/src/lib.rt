#![tactic(auto)]

// What the encoder accepts, the reader reads back.

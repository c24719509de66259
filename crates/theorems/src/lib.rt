// The theorems about the words and the calls of document 01: specs/Theorems.antt gathers them, a file for each demand.
// No code but one empty function, which says once what is true by the type alone.
#![tactic(auto)]

ghost use Rattle.std.specs.Prelude.{◌≡◌};

// A slice lent for reading is afterwards what it was, whatever is done with it: a function cannot write through it.
// This holds of every function by its type, and is proved here with no proof file, so that no contract repeats it.
pub fn lent_for_reading(symbols: &[u8], values: &[i16], entries: &[i32])
    ensures { (symbols.exit.now ≡ symbols.entry.now) × (values.exit.now ≡ values.entry.now)
        × (entries.exit.now ≡ entries.entry.now) }
{}

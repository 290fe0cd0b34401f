// The files that the arguments name, each with the name that it has where none is given.
ghost use Rattle.std.specs.Prelude.{◌≡◌, map as each_of, string_bytes, codes, slice_index_or};

// The first argument.
pub fn circuit_name(words: &[String]) -> &str
    ensures { result.now ≡ slice_index_or (each_of string_bytes words.now) 0 (codes "circuit.aag") }
{
    words.first().map_or("circuit.aag", |word| word.as_str())
}

// The second argument.
pub fn frames_name(words: &[String]) -> &str
    ensures { result.now ≡ slice_index_or (each_of string_bytes words.now) 1 (codes "frames.txt") }
{
    words.get(1).map_or("frames.txt", |word| word.as_str())
}

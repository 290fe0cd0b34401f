// The arguments of a program that takes the names of files.
ghost use Rattle.std.specs.Prelude.{◌≡◌, true, map as each_of, string_bytes, IfOk, IfSome};
ghost use Rattle.command_line.specs.Arguments.{are_names as names, usage_asked, Taken};

use anyhow::anyhow;
use std::env;

// Whether they are so many names at most: an argument that begins with `-` is no file's name.
pub fn are_names(words: &[String], most: usize) -> bool
    ensures { result ≡ names (each_of string_bytes words.now) most }
{
    words.len() <= most && words.iter().all(|word| !word.as_str().starts_with('-'))
}

// Whether one of them asks for the usage text.
fn asks_usage(words: &[String]) -> bool
    ensures { result ≡ usage_asked (each_of string_bytes words.now) }
{
    words.iter().any(|word| word.as_str() == "--help")
}

// The words, where they are so many names at most; none where they ask for the usage text, which is then printed.
fn taken(
    rt: &HostRuntime,
    words: Vec<String>,
    most: usize,
    usage: &str,
) -> anyhow::Result<Option<Vec<String>>>
    ensures { IfOk result (Taken (each_of string_bytes words.items) most) }
{
    if asks_usage(words.as_slice()) {
        print!(rt; "{usage}")?;
        return Ok(None);
    }
    if !are_names(words.as_slice(), most) {
        eprint!(rt; "{usage}")?;
        return Err(anyhow!("the arguments are not of this form"));
    }
    Ok(Some(words))
}

// The arguments of a program that takes so many names, as above.
pub fn arguments(rt: &HostRuntime, most: usize, usage: &str) -> anyhow::Result<Option<Vec<String>>>
    ensures answer { IfOk result (λ o. IfSome o (λ words. names (each_of string_bytes words.items) most ≡ true)) }
{
    let mut words = env::args(rt)?;
    let _program = words.next();
    taken(rt, words.collect(rt.alloc())?, most, usage)
}

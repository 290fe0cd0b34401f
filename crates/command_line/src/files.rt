// Files by their names.
ghost use Rattle.std.specs.Prelude.{◌≢◌, IfErr};
ghost use Rattle.std.specs.IoError.{error_kind};
ghost use Rattle.std.specs.declared.io.ErrorKind.TheVariants.{NotFound};

use std::{fs, io};

// The bytes of a file; a missing file counts as empty, so that it is no error. No clause can say what a file holds.
pub fn file_bytes(rt: &HostRuntime, path: &str) -> io::Result<Vec<u8>>
    ensures answer { IfErr result (λ e. error_kind e ≢ NotFound) }
{
    match fs::read(rt, path) {
        Err(error) if error.kind() == io::ErrorKind::NotFound => Ok(Vec::new(rt.alloc())),
        read => read,
    }
}

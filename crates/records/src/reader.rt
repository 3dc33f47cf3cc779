ghost use Rattle.std.specs.Prelude.{◌≤◌, length};

mod steps;

// Reads a file's bytes record by record: all before `at` is read.
#[derive(Drop)]
pub struct Reader<'a> {
    bytes: &'a [u8],
    at: usize,
    ghost inside: { at ≤ length bytes.now },
}

// A run of free bytes of a fixed length.
ghost use Rattle.std.specs.Prelude.{◌≡◌, length};

pub mod calls;

#[derive(Clone, Copy, PartialEq, Eq)]
pub struct Octets<const N: usize> {
    bytes: [u8; N],
    ghost full: { length bytes ≡ N },
}

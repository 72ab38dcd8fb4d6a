// A fixed number of grants, in order of their slots, held as their codes: every byte is a grant.
ghost use Rattle.std.specs.Prelude.{◌≡◌, length};

pub mod calls;

#[derive(Clone, Copy)]
pub struct Grants<const N: usize> {
    codes: [u8; N],
    ghost full: { length codes ≡ N },
}

// A part of an upstream slot: where it starts and how long it is, in bytes of the slot's 53.
ghost use Rattle.std.specs.Prelude.{◌+◌, ◌≤◌};

pub mod calls;

#[derive(Clone, Copy)]
pub struct Minislot {
    offset: u8,
    length: u8,
    ghost some: { 1 ≤ length },
    ghost inside: { offset + length ≤ 53 },
}

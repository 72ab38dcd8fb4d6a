// The check byte that protects each group of grants and each message.
ghost use Rattle.std.specs.Prelude.{◌≡◌, [], ◌∷◌, ◌++◌, bit_xor};
ghost use Rattle.field.specs.Check.{check_of, shifted};

// The remainder of each register value after eight further zero coefficients.
const TABLE: [u8; 256] = [
    0, 7, 14, 9, 28, 27, 18, 21, 56, 63, 54, 49, 36, 35, 42, 45, 112, 119, 126, 121, 108, 107, 98,
    101, 72, 79, 70, 65, 84, 83, 90, 93, 224, 231, 238, 233, 252, 251, 242, 245, 216, 223, 214,
    209, 196, 195, 202, 205, 144, 151, 158, 153, 140, 139, 130, 133, 168, 175, 166, 161, 180, 179,
    186, 189, 199, 192, 201, 206, 219, 220, 213, 210, 255, 248, 241, 246, 227, 228, 237, 234, 183,
    176, 185, 190, 171, 172, 165, 162, 143, 136, 129, 134, 147, 148, 157, 154, 39, 32, 41, 46, 59,
    60, 53, 50, 31, 24, 17, 22, 3, 4, 13, 10, 87, 80, 89, 94, 75, 76, 69, 66, 111, 104, 97, 102,
    115, 116, 125, 122, 137, 142, 135, 128, 149, 146, 155, 156, 177, 182, 191, 184, 173, 170, 163,
    164, 249, 254, 247, 240, 229, 226, 235, 236, 193, 198, 207, 200, 221, 218, 211, 212, 105, 110,
    103, 96, 117, 114, 123, 124, 81, 86, 95, 88, 77, 74, 67, 68, 25, 30, 23, 16, 5, 2, 11, 12, 33,
    38, 47, 40, 61, 58, 51, 52, 78, 73, 64, 71, 82, 85, 92, 91, 118, 113, 120, 127, 106, 109, 100,
    99, 62, 57, 48, 55, 34, 37, 44, 43, 6, 1, 8, 15, 26, 29, 20, 19, 174, 169, 160, 167, 178, 181,
    188, 187, 150, 145, 152, 159, 138, 141, 132, 131, 222, 217, 208, 215, 194, 197, 204, 203, 230,
    225, 232, 239, 250, 253, 244, 243,
];

// The remainder after one byte more.
fn after_byte(check: u8, byte: u8) -> u8
    ensures { result ≡ shifted (bit_xor check byte) }
{
    TABLE[(check ^ byte) as usize]
}

// The remainder after some bytes more, from a register preset to 0.
fn after_bytes(preset: u8, bytes: &[u8]) -> u8
    ensures { preset ≡ 0 → result ≡ check_of bytes.now }
{
    let mut check = preset;
    for byte in bytes {
        check = after_byte(check, *byte);
    }
    check
}

// The check byte of any bytes.
pub fn check_byte(bytes: &[u8]) -> u8
    ensures { result ≡ check_of bytes.now }
{
    after_bytes(0, bytes)
}

// The check byte of any bytes with one more after them.
fn check_byte_and(bytes: &[u8], byte: u8) -> u8
    ensures { result ≡ check_of (bytes.now ++ byte ∷ []) }
{
    after_byte(check_byte(bytes), byte)
}

// The check byte of any bytes with one zero byte after them.
pub fn check_byte_and_zero(bytes: &[u8]) -> u8
    ensures { result ≡ check_of (bytes.now ++ 0 ∷ []) }
{
    check_byte_and(bytes, 0)
}

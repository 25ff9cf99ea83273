//! The fields of an instruction word ("Base Instruction Formats" and "Immediate Encoding Variants").

ghost use Rattle.std.specs.Prelude.{◌≡◌, ◌-◌, ◌^◌, ◌<◌, ◌≤◌};
ghost use Rattle.rv_spec.specs.Decode as isa;
ghost use Rattle.rv_spec.specs.Words.{bits_of, sign_extend};

/// Bits 0 to 6.
pub fn opcode(word: u32) -> u32
    ensures { result ≡ isa.opcode word }
{
    word % 0x80
}

/// The destination register, bits 7 to 11.
pub fn rd(word: u32) -> u8
    ensures { result ≡ isa.rd word }
{
    register(word, 7)
}

/// Bits 12 to 14.
pub fn funct3(word: u32) -> u32
    ensures { result ≡ isa.funct3 word }
{
    bits(word, 12, 3)
}

/// The first source register, bits 15 to 19.
pub fn rs1(word: u32) -> u8
    ensures { result ≡ isa.rs1 word }
{
    register(word, 15)
}

/// The second source register, bits 20 to 24.
pub fn rs2(word: u32) -> u8
    ensures { result ≡ isa.rs2 word }
{
    register(word, 20)
}

/// Bits 25 to 31.
pub fn funct7(word: u32) -> u32
    ensures { result ≡ isa.funct7 word }
{
    bits(word, 25, 7)
}

/// The immediate of an I-type word, -2,048 to 2,047.
pub fn imm_i(word: u32) -> i32
    ensures { result ≡ isa.imm_i word }
{
    sign_extended(bits(word, 20, 12), 12)
}

/// The immediate of an S-type word, -2,048 to 2,047.
pub fn imm_s(word: u32) -> i32
    ensures { result ≡ isa.imm_s word }
{
    sign_extended(bits(word, 25, 7) * 0x20 + bits(word, 7, 5), 12)
}

/// The offset of a B-type word in bytes: even, -4,096 to 4,094.
pub fn imm_b(word: u32) -> i32
    ensures { result ≡ isa.imm_b word }
{
    let upper = bits(word, 31, 1) * 0x1000 + bits(word, 7, 1) * 0x800;
    sign_extended(upper + bits(word, 25, 6) * 0x20 + bits(word, 8, 4) * 2, 13)
}

/// The immediate of a U-type word: a multiple of 4,096.
pub fn imm_u(word: u32) -> u32
    ensures { result ≡ isa.imm_u word }
{
    bits(word, 12, 20) * 0x1000
}

/// The offset of a J-type word in bytes: even, -1,048,576 to 1,048,574.
pub fn imm_j(word: u32) -> i32
    ensures { result ≡ isa.imm_j word }
{
    let upper = bits(word, 31, 1) * 0x10_0000 + bits(word, 12, 8) * 0x1000;
    sign_extended(
        upper + bits(word, 20, 1) * 0x800 + bits(word, 21, 10) * 2,
        21,
    )
}

/// The bits of a word from bit `low` on, `count` of them.
pub fn bits(word: u32, low: u32, count: u32) -> u32
    requires low { low < 32 }
    requires count { count < 32 }
    ensures value { result ≡ bits_of low count word }
    ensures range { result < 2 ^ count }
{
    (word >> low) % (1 << count)
}

fn register(word: u32, low: u32) -> u8
    requires { low < 32 }
    ensures { result ≡ bits_of low 5 word }
{
    bits(word, low, 5) as u8
}

/// A number of `count` bits in two's complement.
fn sign_extended(n: u32, count: u32) -> i32
    requires low { 0 < count }
    requires high { count < 32 }
    requires range { n < 2 ^ count }
    ensures { result ≡ sign_extend count n }
{
    if n < 1 << (count - 1) {
        n as i32
    } else {
        !(((1 << count) - 1 - n) as i32)
    }
}

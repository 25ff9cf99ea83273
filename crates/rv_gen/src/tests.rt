use super::*;
use std::test::Fail;

/// The words of `program(7, 20000)`, computed by a script in another language from the description of the generator.
const WORDS: [u32; 76] = [
    0x0002_0437,
    0x1DC0_0493,
    0x03D2_0937,
    0x1DA9_0913,
    0x09CC_C9B7,
    0x54E9_8993,
    0x00CA_1A37,
    0x314A_0A13,
    0x05C6_9AB7,
    0x598A_8A93,
    0x0119_BB37,
    0x3E3B_0B13,
    0x0F90_9BB7,
    0x000B_8B93,
    0x073A_CC37,
    0x43FC_0C13,
    0x09AE_3CB7,
    0xF04C_8C93,
    0x0C7A_1D37,
    0x307D_0D13,
    0x0795_FDB7,
    0x226D_8D93,
    0x7C64_1B83,
    0x0129_D463,
    0x03F0_0893,
    0x0000_0513,
    0x4D14_0593,
    0x0040_0613,
    0x0000_0073,
    0xDA4D_3C13,
    0x24DD_AB13,
    0x0399_49B3,
    0x40CC_FD13,
    0x6864_1C03,
    0x886A_2D93,
    0x0400_0893,
    0x0010_0513,
    0x50A4_0593,
    0x0040_0613,
    0x0000_0073,
    0x012C_1C33,
    0x3574_1C23,
    0x016D_0A33,
    0x57B4_09A3,
    0xDECC_C993,
    0x038D_6933,
    0x5D24_04A3,
    0x014A_5A33,
    0x0254_4A83,
    0xDC3D_FD13,
    0x0169_4463,
    0x416A_8A33,
    0x0400_0893,
    0x0010_0513,
    0x0294_0593,
    0x0040_0613,
    0x0000_0073,
    0x019A_8C33,
    0x4A5D_BA93,
    0x79CB_2A93,
    0x03AC_0B33,
    0x0764_2223,
    0x034A_3CB3,
    0x6174_2A23,
    0x5FB4_0323,
    0x03F0_0893,
    0x0000_0513,
    0x6374_0593,
    0x0040_0613,
    0x0000_0073,
    0x0000_000F,
    0xFFF4_8493,
    0xF204_9CE3,
    0x0000_0513,
    0x05D0_0893,
    0x0000_0073,
];

/// The first bytes of its input, by the same script.
const INPUT: [u8; 16] = [
    9, 82, 140, 177, 96, 232, 196, 156, 140, 124, 154, 229, 174, 103, 72, 204,
];

#[test]
fn a_program_and_its_input(rt: HostRuntime) -> Result<(), Fail> {
    let made = program(rt.alloc(), 7, 20_000)?;
    let file = made.elf.list();
    assert_eq!(rt; file.len(), 84 + 4 * WORDS.len());
    for (i, word) in WORDS.iter().enumerate() {
        let bytes = file.get(84 + 4 * i..88 + 4 * i);
        assert_eq!(rt; bytes, Some(word.to_le_bytes().as_slice()), "word {i}");
    }
    assert_eq!(rt; made.input.list().len(), 256);
    assert_eq!(rt; made.input.list().get(..16), Some(INPUT.as_slice()));
    Ok(())
}

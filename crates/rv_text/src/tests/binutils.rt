//! Random words with the texts that GNU binutils gives them: `objdump -D -b binary -m riscv:rv32 -M numeric,no-aliases` (2.40),
//! with a blank behind each comma, the targets of jumps and branches as offsets from the word's address, and shift amounts in
//! decimal. The words have random fields, six for each instruction but the fences and calls, with aq and rl 0.

use super::*;

/// Words and texts, of RV32I and M.
const LISTED: &str = "\
e7d80037 lui x0, 0xe7d80
b9096a17 auipc x20, 0xb9096
afae5a6f jal x20, -109830
c9638fe7 jalr x31, -874(x7)
c4398363 beq x19, x3, -3002
e1451c63 bne x10, x20, -2536
e794ce63 blt x9, x25, -2436
26b553e3 bge x10, x11, 2662
42846d63 bltu x8, x8, 1082
ac8bf7e3 bgeu x23, x8, -1330
a2be8e03 lb x28, -1493(x29)
d96e1a83 lh x21, -618(x28)
e7aaa503 lw x10, -390(x21)
19fccc03 lbu x24, 415(x25)
df43df83 lhu x31, -524(x7)
53d20c23 sb x29, 1336(x4)
92ac1d23 sh x10, -1734(x24)
e7ca2323 sw x28, -410(x20)
2b5c0c93 addi x25, x24, 693
06e82a13 slti x20, x16, 110
6959b313 sltiu x6, x19, 1685
68204113 xori x2, x0, 1666
fe6c6b13 ori x22, x24, -26
1333fc13 andi x24, x7, 307
006e1293 slli x5, x28, 6
00055e93 srli x29, x10, 0
41b35a13 srai x20, x6, 27
01728333 add x6, x5, x23
03358333 mul x6, x11, x19
00a61f33 sll x30, x12, x10
030b9db3 mulh x27, x23, x16
0177a433 slt x8, x15, x23
036a2133 mulhsu x2, x20, x22
012736b3 sltu x13, x14, x18
0320beb3 mulhu x29, x1, x18
00184b33 xor x22, x16, x1
029c4bb3 div x23, x24, x9
006ad4b3 srl x9, x21, x6
03e7d633 divu x12, x15, x30
002861b3 or x3, x16, x2
03686cb3 rem x25, x16, x22
01bcf733 and x14, x25, x27
02aff333 remu x6, x31, x10
40918ab3 sub x21, x3, x9
403ad2b3 sra x5, x21, x3
30b9f637 lui x12, 0x30b9f
40e05297 auipc x5, 0x40e05
b1852aef jal x21, -711912
c3b18367 jalr x6, -965(x3)
48918663 beq x3, x9, 1164
4e189363 bne x17, x1, 1254
b0b44663 blt x8, x11, -3316
41bcd5e3 bge x25, x27, 3082
29d164e3 bltu x2, x29, 2696
9fbbf663 bgeu x23, x27, -3604
1e210203 lb x4, 482(x2)
e7db1703 lh x14, -387(x22)
05f9ab83 lw x23, 95(x19)
447e4003 lbu x0, 1095(x28)
b4ae5d83 lhu x27, -1206(x28)
3be487a3 sb x30, 943(x9)
dbee9e23 sh x30, -580(x29)
d756a423 sw x21, -664(x13)
383c0113 addi x2, x24, 899
92ed2613 slti x12, x26, -1746
3cd13893 sltiu x17, x2, 973
0e56c593 xori x11, x13, 229
0352e993 ori x19, x5, 53
cc8ff513 andi x10, x31, -824
01151113 slli x2, x10, 17
001fdc13 srli x24, x31, 1
40fdd193 srai x3, x27, 15
01868233 add x4, x13, x24
030a0033 mul x0, x20, x16
01dd1bb3 sll x23, x26, x29
03999133 mulh x2, x19, x25
01faa7b3 slt x15, x21, x31
03882333 mulhsu x6, x16, x24
00a6bcb3 sltu x25, x13, x10
02883e33 mulhu x28, x16, x8
0010c0b3 xor x1, x1, x1
032bc0b3 div x1, x23, x18
00245333 srl x6, x8, x2
037fdbb3 divu x23, x31, x23
0017edb3 or x27, x15, x1
0241e7b3 rem x15, x3, x4
0132f7b3 and x15, x5, x19
02d2f9b3 remu x19, x5, x13
401f0733 sub x14, x30, x1
4027dab3 sra x21, x15, x2
584355b7 lui x11, 0x58435
39599997 auipc x19, 0x39599
1dc9036f jal x6, 590300
e8240867 jalr x16, -382(x8)
9b910a63 beq x2, x25, -3660
0d449de3 bne x9, x20, 2266
84fd4ee3 blt x26, x15, -1956
31825e63 bge x4, x24, 796
6fba67e3 bltu x20, x27, 3822
2c1df763 bgeu x27, x1, 718
fe1d0103 lb x2, -31(x26)
2c1d9f03 lh x30, 705(x27)
d6e82403 lw x8, -658(x16)
14bc4283 lbu x5, 331(x24)
1d65d783 lhu x15, 470(x11)
c8b00023 sb x11, -896(x0)
e25b93a3 sh x5, -473(x23)
4b212fa3 sw x18, 1215(x2)
00830f13 addi x30, x6, 8
cf5d2713 slti x14, x26, -779
a6c63d93 sltiu x27, x12, -1428
cc614713 xori x14, x2, -826
50b96093 ori x1, x18, 1291
ac19f093 andi x1, x19, -1343
00d31f93 slli x31, x6, 13
00efdf13 srli x30, x31, 14
41d95813 srai x16, x18, 29
01180d33 add x26, x16, x17
03c48bb3 mul x23, x9, x28
01aa19b3 sll x19, x20, x26
034e9d33 mulh x26, x29, x20
01b8a333 slt x6, x17, x27
03eaa0b3 mulhsu x1, x21, x30
01f8b233 sltu x4, x17, x31
02d73cb3 mulhu x25, x14, x13
000247b3 xor x15, x4, x0
02174c33 div x24, x14, x1
0025d1b3 srl x3, x11, x2
0289d9b3 divu x19, x19, x8
00a9e5b3 or x11, x19, x10
036265b3 rem x11, x4, x22
013ef6b3 and x13, x29, x19
02b6f533 remu x10, x13, x11
40e60e33 sub x28, x12, x14
414b59b3 sra x19, x22, x20
0b589fb7 lui x31, 0xb589
c9a20e17 auipc x28, 0xc9a20
06f2f0ef jal x1, 194670
31c40b67 jalr x22, 796(x8)
383a0063 beq x20, x3, 896
835c9063 bne x25, x21, -4064
81b34c63 blt x6, x27, -4072
b3665363 bge x12, x22, -3290
031c6c63 bltu x24, x17, 56
2814f063 bgeu x9, x1, 640
06168783 lb x15, 97(x13)
ecf01b83 lh x23, -305(x0)
aaa42903 lw x18, -1366(x8)
bea74b83 lbu x23, -1046(x14)
86fd5783 lhu x15, -1937(x26)
e57088a3 sb x23, -431(x1)
22979e23 sh x9, 572(x15)
e4542223 sw x5, -444(x8)
4fe50993 addi x19, x10, 1278
dff82c13 slti x24, x16, -513
2043b693 sltiu x13, x7, 516
6b424a13 xori x20, x4, 1716
46696213 ori x4, x18, 1126
1bf67313 andi x6, x12, 447
01569c93 slli x25, x13, 21
01405c13 srli x24, x0, 20
41ced993 srai x19, x29, 28
01638733 add x14, x7, x22
02918a33 mul x20, x3, x9
01f219b3 sll x19, x4, x31
03f49ab3 mulh x21, x9, x31
00e2ad33 slt x26, x5, x14
0329a433 mulhsu x8, x19, x18
0018bf33 sltu x30, x17, x1
0215bd33 mulhu x26, x11, x1
01c74fb3 xor x31, x14, x28
02dcc633 div x12, x25, x13
01b4d633 srl x12, x9, x27
03e150b3 divu x1, x2, x30
012eeeb3 or x29, x29, x18
02d26f33 rem x30, x4, x13
00c4f433 and x8, x9, x12
02d47eb3 remu x29, x8, x13
41c38d33 sub x26, x7, x28
4045df33 sra x30, x11, x4
5d4f51b7 lui x3, 0x5d4f5
9f76d017 auipc x0, 0x9f76d
4c5832ef jal x5, 539844
24d281e7 jalr x3, 589(x5)
ad2c00e3 beq x24, x18, -1344
b9bf98e3 bne x31, x27, -1136
1942cee3 blt x5, x20, 2460
013e5fe3 bge x28, x19, 2078
46b6e6e3 bltu x13, x11, 3180
0fd1f063 bgeu x3, x29, 224
e0e68383 lb x7, -498(x13)
63309003 lh x0, 1587(x1)
5f8c2783 lw x15, 1528(x24)
bc484f83 lbu x31, -1084(x16)
f84d5783 lhu x15, -124(x26)
48538e23 sb x5, 1180(x7)
65599da3 sh x21, 1627(x19)
fae1a1a3 sw x14, -93(x3)
d6408213 addi x4, x1, -668
e6cc2c93 slti x25, x24, -404
7667be13 sltiu x28, x15, 1894
cf68c513 xori x10, x17, -778
1970e613 ori x12, x1, 407
110d7413 andi x8, x26, 272
01e09613 slli x12, x1, 30
0023d993 srli x19, x7, 2
40185193 srai x3, x16, 1
00d18f33 add x30, x3, x13
02fb8fb3 mul x31, x23, x15
00909433 sll x8, x1, x9
036e1633 mulh x12, x28, x22
01402ab3 slt x21, x0, x20
037e2bb3 mulhsu x23, x28, x23
01eabdb3 sltu x27, x21, x30
022e3833 mulhu x16, x28, x2
004acf33 xor x30, x21, x4
020cc1b3 div x3, x25, x0
015adf33 srl x30, x21, x21
0379d6b3 divu x13, x19, x23
013fe733 or x14, x31, x19
02ff6e33 rem x28, x30, x15
01f97033 and x0, x18, x31
03d07a33 remu x20, x0, x29
41110433 sub x8, x2, x17
41445f33 sra x30, x8, x20
9e46e037 lui x0, 0x9e46e
f2f4f697 auipc x13, 0xf2f4f
67f57e6f jal x28, 360062
b0478867 jalr x16, -1276(x15)
99eb8ae3 beq x23, x30, -1644
14051c63 bne x10, x0, 344
950f44e3 blt x30, x16, -1720
d8f7dde3 bge x15, x15, -614
5c166fe3 bltu x12, x1, 3550
ca227fe3 bgeu x4, x2, -834
486f8383 lb x7, 1158(x31)
715a1a03 lh x20, 1813(x20)
0cc4ac03 lw x24, 204(x9)
cf604083 lbu x1, -778(x0)
a7b0d983 lhu x19, -1413(x1)
23400fa3 sb x20, 575(x0)
e16c1ea3 sh x22, -483(x24)
9f6dac23 sw x22, -1544(x27)
603e0f13 addi x30, x28, 1539
e63e2613 slti x12, x28, -413
dba6b393 sltiu x7, x13, -582
8ffece13 xori x28, x29, -1793
65b66093 ori x1, x12, 1627
64e0fb93 andi x23, x1, 1614
011e1813 slli x16, x28, 17
00eed713 srli x14, x29, 14
40f95893 srai x17, x18, 15
01670933 add x18, x14, x22
032b8933 mul x18, x23, x18
01791233 sll x4, x18, x23
03799fb3 mulh x31, x19, x23
00fb2533 slt x10, x22, x15
030e26b3 mulhsu x13, x28, x16
01f43633 sltu x12, x8, x31
03b3bf33 mulhu x30, x7, x27
00ed4bb3 xor x23, x26, x14
024244b3 div x9, x4, x4
017756b3 srl x13, x14, x23
02fdd633 divu x12, x27, x15
01596eb3 or x29, x18, x21
03806e33 rem x28, x0, x24
013af0b3 and x1, x21, x19
022ef9b3 remu x19, x29, x2
41530633 sub x12, x6, x21
40e15933 sra x18, x2, x14
4bc14293 xori x5, x2, 1212
81837363 bgeu x6, x24, -4090
";

/// Words and texts of extension A.
const LISTED_ATOMIC: &str = "\
1005a5af lr.w x11, (x11)
19fb27af sc.w x15, x31, (x22)
09a9a02f amoswap.w x0, x26, (x19)
00daa42f amoadd.w x8, x13, (x21)
20d2aa2f amoxor.w x20, x13, (x5)
60bda32f amoand.w x6, x11, (x27)
401dafaf amoor.w x31, x1, (x27)
80fc20af amomin.w x1, x15, (x24)
a1aa292f amomax.w x18, x26, (x20)
c032a9af amominu.w x19, x3, (x5)
e170ac2f amomaxu.w x24, x23, (x1)
1000a2af lr.w x5, (x1)
19c8242f sc.w x8, x28, (x16)
08ec262f amoswap.w x12, x14, (x24)
00f8aeaf amoadd.w x29, x15, (x17)
20fc20af amoxor.w x1, x15, (x24)
6096abaf amoand.w x23, x9, (x13)
400c24af amoor.w x9, x0, (x24)
80fa222f amomin.w x4, x15, (x20)
a19f25af amomax.w x11, x25, (x30)
c092a22f amominu.w x4, x9, (x5)
e1b52e2f amomaxu.w x28, x27, (x10)
100d2b2f lr.w x22, (x26)
19e02e2f sc.w x28, x30, (x0)
09312d2f amoswap.w x26, x19, (x2)
01df2aaf amoadd.w x21, x29, (x30)
2087a22f amoxor.w x4, x8, (x15)
61feabaf amoand.w x23, x31, (x29)
40c926af amoor.w x13, x12, (x18)
818b2aaf amomin.w x21, x24, (x22)
a1f9a6af amomax.w x13, x31, (x19)
c10eac2f amominu.w x24, x16, (x29)
e1e4a3af amomaxu.w x7, x30, (x9)
100f212f lr.w x2, (x30)
185b26af sc.w x13, x5, (x22)
09b0a0af amoswap.w x1, x27, (x1)
01b2acaf amoadd.w x25, x27, (x5)
213926af amoxor.w x13, x19, (x18)
60daadaf amoand.w x27, x13, (x21)
4051a02f amoor.w x0, x5, (x3)
80a9222f amomin.w x4, x10, (x18)
a01fa22f amomax.w x4, x1, (x31)
c1e624af amominu.w x9, x30, (x12)
e0ffa72f amomaxu.w x14, x15, (x31)
1003a92f lr.w x18, (x7)
1892212f sc.w x2, x9, (x4)
096425af amoswap.w x11, x22, (x8)
0192272f amoadd.w x14, x25, (x4)
209faaaf amoxor.w x21, x9, (x31)
6146af2f amoand.w x30, x20, (x13)
400aa9af amoor.w x19, x0, (x21)
808ea22f amomin.w x4, x8, (x29)
a018aaaf amomax.w x21, x1, (x17)
c1ed2faf amominu.w x31, x30, (x26)
e0fba0af amomaxu.w x1, x15, (x23)
1007a3af lr.w x7, (x15)
19692b2f sc.w x22, x22, (x18)
0923252f amoswap.w x10, x18, (x6)
00882aaf amoadd.w x21, x8, (x16)
2043a62f amoxor.w x12, x4, (x7)
615ba02f amoand.w x0, x21, (x23)
41a5ae2f amoor.w x28, x26, (x11)
81eba1af amomin.w x3, x30, (x23)
a00b2eaf amomax.w x29, x0, (x22)
c12aa1af amominu.w x3, x18, (x21)
e0b3242f amomaxu.w x8, x11, (x6)
";

/// The word and the text of a line.
fn word_and_text(line: &str) -> Option<(u32, &str)> {
    let (word, text) = line.split_once(' ')?;
    let word = u32::from_str_radix(word, 16).ok()?;
    Some((word, text))
}

#[test]
fn texts_of_binutils(rt: HostRuntime) -> Result<(), Fail> {
    for line in LISTED.lines() {
        let (word, text) = word_and_text(line).ok_or("a line")?;
        assert_eq!(rt; disasm(word).as_str(), text, "at {word:#x}");
    }
    for line in LISTED_ATOMIC.lines() {
        let (word, text) = word_and_text(line).ok_or("a line")?;
        let shown = disasm_atomic(word).ok_or("an instruction")?;
        assert_eq!(rt; shown.as_str(), text, "at {word:#x}");
    }
    Ok(())
}

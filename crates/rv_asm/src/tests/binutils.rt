//! Random lines with the words that GNU binutils (2.40) makes of them: `as -march=rv32im -mabi=ilp32 -mno-relax`, and the section
//! .text by `objcopy -O binary`. Mnemonics, registers, numbers and blanks are random, and targets are random labels.

use super::*;

const SOURCE: &str = "\
l0: slti x14 ,x12,-0x800\n\
l1:\tremu  x21 ,x16 ,x25\n\
l2:rem\tx23 , x28 , x1\n\
l3: sb\tx25\t,\t0(x9)\n\
l4:lbu\tx11 , -0x148(x8)\n\
l5:\tsra\tx20 ,x7 , x5\n\
l6:sltiu x6\t,\tx20, 0x1\n\
l7:\txor x13, x7\t,\tx31\n\
l8:sll\tx20\t,\tx21 , x30\n\
l9:xor  x15,x6 ,x5\n\
l10:\tslli x28\t,\tx28 , 0x1\n\
l11: jal  x20 , l65\n\
l12: sltiu\tx2 , x16\t,\t-0x764\n\
l13: srl\tx26 , x6 , x21\n\
l14:\tjal  x24\t,\tl288\n\
l15:\tjalr x24,1772(x4)\n\
l16:mulh\tx31, x17 ,x7\n\
l17:\tblt x24, x15,l190\n\
l18: remu  x20\t,\tx29 ,x24\n\
l19:ori x19 , x9 ,0x0\n\
l20: addi\tx10,x26, 0x7Ff\n\
l21:jal\tx18\t,\tl80\n\
l22:\tsll x5 , x2, x3\n\
l23: lhu x15 , -0x1(x11)\n\
l24:\tjalr x9, 2047(x12)\n\
l25:auipc  x19 , 1\n\
l26:srai  x26\t,\tx28 , 1\n\
l27: lui\tx31 , 1048575\n\
l28:remu  x21\t,\tx27, x7\n\
l29: andi  x1 ,x23\t,\t-2048\n\
l30:\tjal\tx13 ,l292\n\
l31: ecall\n\
l32:lui x20 ,215369\n\
l33:bne  x0, x8\t,\tl137\n\
l34:\tbne  x31,x10 , l62\n\
l35: sb x8 ,2047(x25)\n\
l36:lh\tx24\t,\t0x65c(x6)\n\
l37:\tjalr x6 ,2047(x2)\n\
l38:srli  x16\t,\tx3\t,\t0x0\n\
l39:auipc  x1,1048575\n\
l40:ori x8,x15\t,\t1\n\
l41: jal  x24\t,\tl268\n\
l42:bne x8 , x24 , l62\n\
l43:\t.word 0x2\n\
l44: jalr  x29,0x0(x19)\n\
l45:\tslt x13,x20, x7\n\
l46:\tauipc\tx18\t,\t358633\n\
l47:bne\tx31\t,\tx23\t,\tl198\n\
l48:\tsltiu  x26 , x22,-2034\n\
l49: jalr\tx28,-2048(x21)\n\
l50:andi\tx4\t,\tx22\t,\t1\n\
l51:jalr x15,1798(x27)\n\
l52: ecall\n\
l53:\tjal\tx27,l301\n\
l54: lh x0 ,-0x18b(x30)\n\
l55:\tdiv\tx23,x1\t,\tx11\n\
l56:sw x0, 60(x12)\n\
l57:\tslli\tx5\t,\tx22 , 0x2\n\
l58:\tauipc x27 , 626199\n\
l59:\trem  x7\t,\tx10 ,x14\n\
l60:slli x8\t,\tx4,26\n\
l61:\tsw\tx17 , -0x1(x4)\n\
l62:\tsrl\tx29,x7,x8\n\
l63:\tmulhsu x18\t,\tx6 ,x8\n\
l64: xor  x14,x2,x24\n\
l65:sb x5, 0x7ff(x8)\n\
l66:jal  x23, l207\n\
l67: add\tx26 ,x30, x25\n\
l68:\tsrai x9\t,\tx11, 0x0\n\
l69: srl  x19 , x19, x27\n\
l70:\tbne x13, x1\t,\tl13\n\
l71:\tandi x28 , x21 , 0x1\n\
l72:mul\tx30 ,x13,x15\n\
l73:\tslli  x2 , x31\t,\t0\n\
l74:\tsub x29,x15,x5\n\
l75: jalr x16, -1(x24)\n\
l76: jal x16,l273\n\
l77:\tadd x30\t,\tx17 ,x6\n\
l78: xor x10 , x9 ,x15\n\
l79: auipc\tx13, 0\n\
l80:\tauipc x15 , 0x0\n\
l81: srai\tx3,x7, 3\n\
l82:\tslti\tx2,x26 , 0\n\
l83:\tdivu  x15 ,x3, x30\n\
l84:\tjalr x13 ,-646(x22)\n\
l85: srai x13, x14 , 0\n\
l86:auipc x13\t,\t0xfffff\n\
l87: sw  x9, 0x1(x14)\n\
l88:\tsra  x24 , x6 , x27\n\
l89:\tmul\tx2,x5\t,\tx1\n\
l90: or\tx13,x25,x16\n\
l91:xori\tx22, x18 ,-0x800\n\
l92:\tsub\tx21 ,x27 ,x5\n\
l93:\tsub  x18 ,x16 , x15\n\
l94: ebreak\n\
l95: beq x18,x27 , l46\n\
l96:mulh\tx23\t,\tx27 ,x13\n\
l97: bltu  x21 ,x31,l278\n\
l98:\tlhu  x13, 0x7Ff(x18)\n\
l99: jalr\tx25,636(x21)\n\
l100:jal x26,l178\n\
l101: lui\tx2 , 0xA2C92\n\
l102: lui  x7\t,\t790593\n\
l103:mul\tx25 ,x8, x29\n\
l104: beq\tx2 ,x8 , l290\n\
l105:.word 0xfffFffFf\n\
l106: or x13 , x7 ,x17\n\
l107: lw  x7 , -1(x0)\n\
l108: jalr x20 ,174(x12)\n\
l109: mulh\tx4, x17 , x8\n\
l110:\tslt\tx1 , x22,x18\n\
l111: div\tx8 , x25,x15\n\
l112:\tsrl\tx28\t,\tx6, x11\n\
l113: ori x27\t,\tx26,2047\n\
l114: sw  x1 ,-472(x3)\n\
l115:\tmul x8 ,x22, x1\n\
l116: sh\tx23,0x7ff(x4)\n\
l117:divu  x14,x14 ,x19\n\
l118:\tlui x4\t,\t2\n\
l119:\tlui  x14,113376\n\
l120: sb\tx0\t,\t-1(x16)\n\
l121: lhu\tx13, 0(x24)\n\
l122:\tmulh x8 ,x28 ,x14\n\
l123:jalr\tx25 , -0x1(x18)\n\
l124:\tauipc\tx11 ,0x1\n\
l125:\tjal\tx0\t,\tl201\n\
l126:\trem\tx23\t,\tx19,x8\n\
l127:\tauipc  x6, 2\n\
l128:srai\tx7, x23, 1\n\
l129:\tbne  x22 , x19,l182\n\
l130: srai  x22 ,x27, 0x16\n\
l131:or  x1, x27,x17\n\
l132:auipc x2 ,0x896Bb\n\
l133: auipc  x31 , 2\n\
l134:\tjalr x31,-882(x21)\n\
l135:mulhsu\tx26 , x9\t,\tx13\n\
l136: remu  x3\t,\tx21,x21\n\
l137:\tsrl  x13 ,x25\t,\tx9\n\
l138: lh\tx26\t,\t271(x1)\n\
l139: jalr\tx8 ,288(x6)\n\
l140:\tsb  x9, 0x78f(x31)\n\
l141:lw\tx26,0x7fF(x21)\n\
l142:\txori x13 , x22, -0xE7\n\
l143:\tsrl x28 ,x11,x21\n\
l144:lui x15, 0x8F9BB\n\
l145: jal x17 , l41\n\
l146: sw x6 ,0x7b0(x5)\n\
l147: and\tx6, x20\t,\tx29\n\
l148:\tdivu  x17, x0,x16\n\
l149: mulhu x24\t,\tx16\t,\tx5\n\
l150: bne\tx29,x20 ,l16\n\
l151:\tmul  x12\t,\tx7\t,\tx13\n\
l152:\tsrl\tx24, x1, x12\n\
l153:\tmulh  x10, x15,x0\n\
l154:\tmul\tx2, x15, x23\n\
l155:\tjal x19\t,\tl10\n\
l156:jalr  x6\t,\t-1343(x19)\n\
l157:sltu\tx6 , x26, x27\n\
l158: srli x19, x6 ,22\n\
l159:\tsub\tx18 ,x5 ,x16\n\
l160:lh x29 ,0(x7)\n\
l161:\tbltu\tx29\t,\tx20, l84\n\
l162:\t.word 0xFFFfffff\n\
l163: lbu\tx12\t,\t-0x310(x7)\n\
l164: .word 0xA25C586b\n\
l165:jal  x17 , l173\n\
l166:bltu x5\t,\tx7\t,\tl192\n\
l167:slt\tx8\t,\tx13 , x20\n\
l168:\tsb  x20 ,-0x800(x16)\n\
l169: sw  x31,-29(x9)\n\
l170:\tsra x29 ,x4 , x30\n\
l171: .word 0x0\n\
l172:\txori x28, x28, -2048\n\
l173:\tsb\tx21,-1(x12)\n\
l174:\tslli\tx4 ,x27,14\n\
l175:div  x4\t,\tx19 , x9\n\
l176:auipc  x28 , 581589\n\
l177:slt  x1\t,\tx29, x22\n\
l178:\tsrl  x17\t,\tx9 , x31\n\
l179:jalr  x6 , 0(x22)\n\
l180: jal x24 , l221\n\
l181: srl x8 ,x27,x27\n\
l182:sltu\tx25 ,x31 , x16\n\
l183:sh  x11,-291(x6)\n\
l184:\tor x13 , x24, x11\n\
l185:jal\tx27,l296\n\
l186:bgeu x29\t,\tx21, l314\n\
l187:\tecall\n\
l188:\tmulh  x31\t,\tx29 , x27\n\
l189:slli\tx24,x21,0x1f\n\
l190:\tauipc\tx15,1048575\n\
l191:blt x15 , x16 , l9\n\
l192: jal  x15 ,l270\n\
l193:\tlui x19\t,\t652029\n\
l194:\tsrli\tx29 ,x15, 0x2\n\
l195: jal x28,l94\n\
l196: xor\tx3\t,\tx29,x30\n\
l197:add  x4,x28\t,\tx26\n\
l198: sra\tx9,x12, x18\n\
l199: sw  x21 ,-0x1(x24)\n\
l200: rem  x3\t,\tx26, x31\n\
l201: jal  x8,l284\n\
l202: bgeu  x3 ,x1\t,\tl308\n\
l203: lb  x2 ,1(x20)\n\
l204: jalr\tx29\t,\t-1(x21)\n\
l205:sub  x15,x26 , x24\n\
l206:\tmul\tx9\t,\tx30, x29\n\
l207:\tebreak\n\
l208:\tsw x16, 0(x30)\n\
l209: sb\tx5,1316(x31)\n\
l210:\tsltiu  x4,x25 , 1\n\
l211:\tlui  x2 , 0x368Bd\n\
l212:\tmulhsu x30 , x1,x6\n\
l213: ecall\n\
l214:\tsll  x10\t,\tx9\t,\tx1\n\
l215:\tlbu x8 , 1(x25)\n\
l216: or x6\t,\tx18,x18\n\
l217:.word 0xfa72cFCE\n\
l218: lw x0\t,\t-1(x11)\n\
l219:\tslli x15 ,x26,0xF\n\
l220:jal  x10, l107\n\
l221:\tlui\tx7 ,1048575\n\
l222:\tori  x19,x8 , 0x1\n\
l223:bltu x25 ,x14, l294\n\
l224:srli x22, x23\t,\t1\n\
l225: bgeu x17 , x9 , l250\n\
l226: lui\tx5,0x0\n\
l227:\tsrli  x8\t,\tx16,0x0\n\
l228:\tbeq\tx26,x25\t,\tl109\n\
l229:\tjal x0 ,l86\n\
l230: rem  x11\t,\tx18 ,x17\n\
l231:mul  x27 , x17,x21\n\
l232: blt  x17 ,x21,l304\n\
l233: jal  x11 , l144\n\
l234:\txor x18 , x24 , x26\n\
l235: jal\tx8 ,l43\n\
l236:lui x0, 1\n\
l237:auipc x24, 2\n\
l238: div x0, x10 ,x31\n\
l239: bne  x0 ,x9,l275\n\
l240:\tlui x13 ,1\n\
l241:\tsub\tx29 , x13,x6\n\
l242:\t.word 0xAe89F7d7\n\
l243:\tmulhu  x1 ,x27\t,\tx15\n\
l244: jalr\tx11 , 1014(x28)\n\
l245:lhu x20 , 0x7fF(x8)\n\
l246: mul x5 ,x31 ,x16\n\
l247:lhu\tx2, -2048(x29)\n\
l248:\tsltiu  x21 ,x26, 1\n\
l249:remu x13 ,x24 , x9\n\
l250:\tauipc x30 , 0x1\n\
l251: div x0 , x30, x25\n\
l252: auipc x5 ,1\n\
l253:lui  x8 , 0x1\n\
l254:\tauipc x14, 0xFFFFF\n\
l255: div\tx24 , x26, x19\n\
l256:auipc  x9,0\n\
l257: mul  x11, x10, x14\n\
l258:lui  x1 , 1048575\n\
l259: bgeu x17, x14 , l164\n\
l260:lbu  x27 , 0(x5)\n\
l261:jal x5\t,\tl68\n\
l262: lw\tx10,-0x1(x31)\n\
l263: .word 0x1\n\
l264:\tsltiu x5,x6 ,0\n\
l265:\tjalr\tx3 , -2048(x7)\n\
l266:sw  x3 , 1036(x3)\n\
l267:\tjal\tx18,l269\n\
l268:srai  x28\t,\tx5 , 2\n\
l269:slli\tx19 , x15\t,\t0x1\n\
l270:\txor x14, x28,x19\n\
l271:div x31,x26 ,x1\n\
l272: lhu  x24 ,-0x9e(x2)\n\
l273:srli  x12, x0\t,\t0x8\n\
l274:\tsra  x12\t,\tx31\t,\tx24\n\
l275:\tslli\tx3,x29 , 31\n\
l276:.word 2710149040\n\
l277: sltiu\tx11 , x5, 418\n\
l278:\tlui\tx20, 0x0\n\
l279: srai\tx8 ,x0,31\n\
l280:jal\tx2, l269\n\
l281: bne x29 , x18 ,l190\n\
l282: lbu  x1, 0x7ff(x1)\n\
l283:jalr x14, -1(x11)\n\
l284:\tmulhu x24\t,\tx28,x18\n\
l285: slli x25, x28 , 27\n\
l286:mul x30\t,\tx6\t,\tx19\n\
l287: auipc  x9 , 379195\n\
l288:.word 0x0\n\
l289: ecall\n\
l290:\tbgeu x16,x11, l177\n\
l291:sh  x20,0x0(x0)\n\
l292: jalr x0 , -202(x28)\n\
l293:auipc\tx3 , 1048575\n\
l294: jalr x9,0x3b4(x9)\n\
l295:mulh  x1, x7 , x24\n\
l296:\txori x15,x26, -1\n\
l297:add  x8 ,x5 ,x24\n\
l298:\tecall\n\
l299:\tslti  x31,x10 , -1\n\
l300:auipc  x14,1048575\n\
l301:beq  x7 ,x11\t,\tl92\n\
l302:\tdiv x22 ,x29,x8\n\
l303: sw x12\t,\t-1(x30)\n\
l304: sb x25 ,2047(x1)\n\
l305:\tsrai  x0,x11 ,0x0\n\
l306:\tsrli  x19\t,\tx24,0x1f\n\
l307:\tsra\tx6 ,x5,x1\n\
l308:\tjalr\tx18,-2048(x7)\n\
l309:slli x18,x6,7\n\
l310:\tbeq\tx7\t,\tx18 ,l309\n\
l311:\tjal x20\t,\tl163\n\
l312: ecall\n\
l313:\tmul\tx17, x17 ,x27\n\
l314:\tlui  x6 ,741431\n\
l315:\tmul x23 , x30, x14\n\
l316:sltiu  x10, x28 ,2047\n\
l317: lui\tx28 ,1048575\n\
l318:jal  x5\t,\tl36\n\
l319:\tsb x23\t,\t0x0(x29)\n\
";

const WORDS: [u32; 320] = [
    0x80062713, 0x03987AB3, 0x021E6BB3, 0x01948023, 0xEB844583, 0x4053DA33, 0x001A3313, 0x01F3C6B3,
    0x01EA9A33, 0x005347B3, 0x001E1E13, 0x0D800A6F, 0x89C83113, 0x01535D33, 0x44800C6F, 0x6EC20C67,
    0x02789FB3, 0x2AFC4A63, 0x038EFA33, 0x0004E993, 0x7FFD0513, 0x0EC0096F, 0x003112B3, 0xFFF5D783,
    0x7FF604E7, 0x00001997, 0x401E5D13, 0xFFFFFFB7, 0x027DFAB3, 0x800BF093, 0x418006EF, 0x00000073,
    0x34949A37, 0x1A801063, 0x06AF9863, 0x7E8C8FA3, 0x65C31C03, 0x7FF10367, 0x0001D813, 0xFFFFF097,
    0x0017E413, 0x38C00C6F, 0x05841863, 0x00000002, 0x00098EE7, 0x007A26B3, 0x578E9917, 0x257F9E63,
    0x80EB3D13, 0x800A8E67, 0x001B7213, 0x706D87E7, 0x00000073, 0x3E000DEF, 0xE75F1003, 0x02B0CBB3,
    0x02062E23, 0x002B1293, 0x98E17D97, 0x02E563B3, 0x01A21413, 0xFF122FA3, 0x0083DEB3, 0x02832933,
    0x01814733, 0x7E540FA3, 0x23400BEF, 0x019F0D33, 0x4005D493, 0x01B9D9B3, 0xF0169EE3, 0x001AFE13,
    0x02F68F33, 0x000F9113, 0x40578EB3, 0xFFFC0867, 0x3140086F, 0x00688F33, 0x00F4C533, 0x00000697,
    0x00000797, 0x4033D193, 0x000D2113, 0x03E1D7B3, 0xD7AB06E7, 0x40075693, 0xFFFFF697, 0x009720A3,
    0x41B35C33, 0x02128133, 0x010CE6B3, 0x80094B13, 0x405D8AB3, 0x40F80933, 0x00100073, 0xF3B90EE3,
    0x02DD9BB3, 0x2DFAEA63, 0x7FF95683, 0x27CA8CE7, 0x13800D6F, 0xA2C92137, 0xC10413B7, 0x03D40CB3,
    0x2E810463, 0xFFFFFFFF, 0x0113E6B3, 0xFFF02383, 0x0AE60A67, 0x02889233, 0x012B20B3, 0x02FCC433,
    0x00B35E33, 0x7FFD6D93, 0xE211A423, 0x021B0433, 0x7F721FA3, 0x03375733, 0x00002237, 0x1BAE0737,
    0xFE080FA3, 0x000C5683, 0x02EE1433, 0xFFF90CE7, 0x00001597, 0x1300006F, 0x0289EBB3, 0x00002317,
    0x401BD393, 0x0D3B1A63, 0x416DDB13, 0x011DE0B3, 0x896BB117, 0x00002F97, 0xC8EA8FE7, 0x02D4AD33,
    0x035AF1B3, 0x009CD6B3, 0x10F09D03, 0x12030467, 0x789F87A3, 0x7FFAAD03, 0xF19B4693, 0x0155DE33,
    0x8F9BB7B7, 0xE61FF8EF, 0x7A62A823, 0x01DA7333, 0x030058B3, 0x02583C33, 0xDF4E94E3, 0x02D38633,
    0x00C0DC33, 0x02079533, 0x03778133, 0xDBDFF9EF, 0xAC198367, 0x01BD3333, 0x01635993, 0x41028933,
    0x00039E83, 0xED4EE6E3, 0xFFFFFFFF, 0xCF03C603, 0xA25C586B, 0x020008EF, 0x0672E463, 0x0146A433,
    0x81480023, 0xFFF4A1A3, 0x41E25EB3, 0x00000000, 0x800E4E13, 0xFF560FA3, 0x00ED9213, 0x0299C233,
    0x8DFD5E17, 0x016EA0B3, 0x01F4D8B3, 0x000B0367, 0x0A400C6F, 0x01BDD433, 0x010FBCB3, 0xECB31EA3,
    0x00BC66B3, 0x1BC00DEF, 0x215EF063, 0x00000073, 0x03BE9FB3, 0x01FA9C13, 0xFFFFF797, 0xD307C4E3,
    0x138007EF, 0x9F2FD9B7, 0x0027DE93, 0xE6DFFE6F, 0x01EEC1B3, 0x01AE0233, 0x412654B3, 0xFF5C2FA3,
    0x03FD61B3, 0x14C0046F, 0x1A11F463, 0x001A0103, 0xFFFA8EE7, 0x418D07B3, 0x03DF04B3, 0x00100073,
    0x010F2023, 0x525F8223, 0x001CB213, 0x368BD137, 0x0260AF33, 0x00000073, 0x00149533, 0x001CC403,
    0x01296333, 0xFA72CFCE, 0xFFF5A003, 0x00FD1793, 0xE3DFF56F, 0xFFFFF3B7, 0x00146993, 0x10ECEE63,
    0x001BDB13, 0x0698F263, 0x000002B7, 0x00085413, 0xE39D02E3, 0xDC5FF06F, 0x031965B3, 0x03588DB3,
    0x1358C063, 0xE9DFF5EF, 0x01AC4933, 0xD01FF46F, 0x00001037, 0x00002C17, 0x03F54033, 0x08901863,
    0x000016B7, 0x40668EB3, 0xAE89F7D7, 0x02FDB0B3, 0x3F6E05E7, 0x7FF45A03, 0x030F82B3, 0x800ED103,
    0x001D3A93, 0x029C76B3, 0x00001F17, 0x039F4033, 0x00001297, 0x00001437, 0xFFFFF717, 0x033D4C33,
    0x00000497, 0x02E505B3, 0xFFFFF0B7, 0xE8E8F2E3, 0x0002CD83, 0xCFDFF2EF, 0xFFFFA503, 0x00000001,
    0x00033293, 0x800381E7, 0x4031A623, 0x0080096F, 0x4022DE13, 0x00179993, 0x013E4733, 0x021D4FB3,
    0xF6215C03, 0x00805613, 0x418FD633, 0x01FE9193, 0xA18997B0, 0x1A22B593, 0x00000A37, 0x41F05413,
    0xFD5FF16F, 0xE92E9AE3, 0x7FF0C083, 0xFFF58767, 0x032E3C33, 0x01BE1C93, 0x03330F33, 0x5C93B497,
    0x00000000, 0x00000073, 0xE2B87EE3, 0x01401023, 0xF36E0067, 0xFFFFF197, 0x3B4484E7, 0x038390B3,
    0xFFFD4793, 0x01828433, 0x00000073, 0xFFF52F93, 0xFFFFF717, 0xCAB38EE3, 0x028ECB33, 0xFECF2FA3,
    0x7F908FA3, 0x4005D013, 0x01FC5993, 0x4012D333, 0x80038967, 0x00731913, 0xFF238EE3, 0xDB1FFA6F,
    0x00000073, 0x03B888B3, 0xB5037337, 0x02EF0BB3, 0x7FFE3513, 0xFFFFFE37, 0xB99FF2EF, 0x017E8023,
];

#[test]
fn words_are_those_of_binutils(rt: HostRuntime) {
    let assembled = assembled(&rt, rt.alloc(), SOURCE.as_bytes());
    assert!(rt; assembled.words.list() == WORDS.as_slice());
    assert_eq!(rt; assembled.symbols.count(), 320);
}

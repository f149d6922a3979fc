// The opcodes by name, with their numbers (lopcodes.h). They are no enum, since that would be no plainer: a word has any of 64
// numbers, of which refusal 9 judges those that are no opcode's, and an S line prints the number; an enum would be made of the
// number at each word and turned back at each line.
pub const MOVE: u8 = 0;

pub const LOADK: u8 = 1;

pub const LOADBOOL: u8 = 2;

pub const LOADNIL: u8 = 3;

pub const GETUPVAL: u8 = 4;

pub const GETGLOBAL: u8 = 5;

pub const GETTABLE: u8 = 6;

pub const SETGLOBAL: u8 = 7;

pub const SETUPVAL: u8 = 8;

pub const SETTABLE: u8 = 9;

pub const NEWTABLE: u8 = 10;

pub const SELF: u8 = 11;

pub const ADD: u8 = 12;

pub const SUB: u8 = 13;

pub const MUL: u8 = 14;

pub const DIV: u8 = 15;

pub const MOD: u8 = 16;

pub const POW: u8 = 17;

pub const UNM: u8 = 18;

pub const NOT: u8 = 19;

pub const LEN: u8 = 20;

pub const CONCAT: u8 = 21;

pub const JMP: u8 = 22;

pub const EQ: u8 = 23;

pub const LT: u8 = 24;

pub const LE: u8 = 25;

pub const TEST: u8 = 26;

pub const TESTSET: u8 = 27;

pub const CALL: u8 = 28;

pub const TAILCALL: u8 = 29;

pub const RETURN: u8 = 30;

pub const FORLOOP: u8 = 31;

pub const FORPREP: u8 = 32;

pub const TFORLOOP: u8 = 33;

pub const SETLIST: u8 = 34;

pub const CLOSE: u8 = 35;

pub const CLOSURE: u8 = 36;

pub const VARARG: u8 = 37;

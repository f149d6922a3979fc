// A statement as a run of numbers, operator first, in a buffer that the caller lends.
#![tactic(auto)]

ghost use Rattle.std.specs.Prelude.{◌≡◌, [], ◌∷◌, take};
ghost use Rattle.ast.specs.Statement.{[]ᵉ, registers, exprs};
ghost use Rattle.ast.specs.Buffer.{buffer};
ghost use Rattle.ast.specs.Written.{Adds};

// ------------------------------------------------------------ the numbers of statements, expressions and operators

// They are plain numbers and no enums, since a run is made of numbers: a writer would turn an enum into its number at each use.

// The number that each kind of statement begins with.
pub const ASSIGN: u32 = 1;

pub const CALL_STATEMENT: u32 = 2;

pub const IF: u32 = 3;

pub const RETURN: u32 = 4;

pub const FOR_INIT: u32 = 5;

pub const FOR_NEXT: u32 = 6;

pub const SET_LIST: u32 = 7;

pub const CLOSE: u32 = 8;

// The number that each kind of expression begins with.
pub const REGISTER: u32 = 1;

pub const CONSTANT: u32 = 2;

pub const NIL: u32 = 3;

pub const BOOLEAN: u32 = 4;

pub const UPVALUE: u32 = 5;

pub const GLOBAL: u32 = 6;

pub const INDEX: u32 = 7;

pub const UNARY: u32 = 8;

pub const BINARY: u32 = 9;

pub const CALL: u32 = 10;

pub const VARARG: u32 = 11;

pub const CLOSURE: u32 = 12;

pub const TABLE: u32 = 13;

pub const SELECT: u32 = 14;

// The operators of unary expressions.
pub const NOT: u32 = 1;

pub const MINUS: u32 = 2;

pub const LENGTH: u32 = 3;

// The operators of binary expressions: those of the opcodes from ADD to POW stand one behind the other, and ADD has the first.
pub const ADD: u32 = 1;

pub const CONCAT: u32 = 7;

pub const EQUAL: u32 = 8;

pub const UNEQUAL: u32 = 9;

pub const LESS: u32 = 10;

pub const LESS_OR_EQUAL: u32 = 11;

// What stands behind the values of a set list: a tail, or none.
pub const TAIL: u32 = 1;

pub const NO_TAIL: u32 = 0;

// ------------------------------------------------------------ writers

// A run that is written into a buffer that the caller lends: the buffer, and how many of its numbers are used. A full buffer takes
// nothing more. An output of `lines` has this shape, but counts on past its end: the two would share `new` alone.
#[derive(Drop)]
pub struct Run<'a> {
    pub numbers: &'a mut [u32],
    pub used: usize,
}

impl<'a> Run<'a> {
    // A run of no numbers.
    pub fn new(numbers: &'a mut [u32]) -> Run<'a>
        ensures same { result.numbers.ghost_name ≡ numbers.entry.ghost_name }
        ensures empty { buffer result.numbers.now result.used ≡ buffer numbers.old 0 }
    {
        Run { numbers, used: 0 }
    }

    // The numbers that were written, as far as the buffer holds them.
    pub fn as_slice(&self) -> &[u32]
        ensures { result.now ≡ take self.now.used self.now.numbers.now }
    {
        &self.numbers[..self.used.min(self.numbers.len())]
    }

    // Writes one number: stored if the buffer has a place for it. By index: std says nothing of a slice behind `get_mut`.
    #[inline(always)]
    pub fn push(&mut self, x: u32)
        ensures { Adds self.old self.new (x ∷ []) }
    {
        if self.used < self.numbers.len() {
            self.numbers[self.used] = x;
            self.used += 1;
        }
    }

    // Writes numbers one after the other. Loops here and in `lua51_runs` have a run of their own: where one is lent, each number written
    // would load and store its count.
    #[inline(always)]
    pub fn push_all(&mut self, numbers: &[u32])
        ensures { Adds self.old self.new numbers.now }
    {
        let mut run = Run {
            numbers: &mut *self.numbers,
            used: self.used,
        };
        for x in numbers {
            run.push(*x);
        }
        self.used = run.used;
    }

    // Writes the registers of an operand that is several of them, 'a first register and a count': each as an expression.
    pub fn push_registers(&mut self, first: u16, count: u16)
        ensures { Adds self.old self.new (exprs (registers first count []ᵉ)) }
    {
        let mut run = Run {
            numbers: &mut *self.numbers,
            used: self.used,
        };
        let first = u32::from(first);
        for register in first..first + u32::from(count) {
            run.push_all(&[REGISTER, register]);
        }
        self.used = run.used;
    }
}

// Assignments to registers, and registers one after the other: as the left side of an assignment, in a set list, closed, joined.
// A loop writes into a run of its own, for the reason that stands at `Run::push_all`.
ghost use Rattle.std.specs.Prelude.{◌-◌};
ghost use Rattle.basics.specs.Range.{over, only};
ghost use Rattle.ast.specs.Statement.{expr};
ghost use Rattle.ast.specs.Statement as ast;
ghost use Rattle.ast.specs.Written.{Adds};
ghost use Rattle.lua51_lifter.specs.Lift.{concatenated};
ghost use Rattle.lua51_runs.specs.Runs.{assigned, lefts, listed};

use ast::{ASSIGN, BINARY, CLOSE, CONCAT, REGISTER, Run, SET_LIST};

// Writes 'R(r) gets a value', the value being an expression's numbers.
pub fn set_register(run: &mut Run, r: u32, value: &[u32])
    ensures { Adds run.old run.new (assigned r value.now) }
{
    run.push_all(&[ASSIGN, 1, 1, REGISTER, r]);
    run.push_all(value);
}

// Writes the head and the left side of an assignment of one value to `count` registers from `first` on.
pub fn push_lefts(run: &mut Run, first: u16, count: u16)
    ensures { Adds run.old run.new (lefts first count) }
{
    run.push_all(&[ASSIGN, u32::from(count), 1]);
    run.push_registers(first, count);
}

// How many values one block of a SETLIST sets at most.
const VALUES_OF_A_BLOCK: u32 = 50;

// Writes the set list of R(a) for block c, of `count` registers behind R(a), up to its tail.
pub fn push_list(run: &mut Run, a: u8, c: u16, count: u16)
    ensures { Adds run.old run.new (listed a c count) }
{
    let index = u32::from(c.saturating_sub(1)) * VALUES_OF_A_BLOCK + 1;
    run.push_all(&[SET_LIST, u32::from(a), index, u32::from(count)]);
    run.push_registers(u16::from(a) + 1, count);
}

// Writes 'close' of the registers from `first` to below the stack's end.
pub fn close(run: &mut Run, first: u8, stack: u8)
    ensures { Adds run.old run.new (ast.run (ast.close (over only first (stack - first)))) }
{
    let count = stack.saturating_sub(first);
    run.push_all(&[CLOSE, u32::from(count)]);
    let mut own = Run {
        numbers: &mut *run.numbers,
        used: run.used,
    };
    for register in first..stack {
        own.push(u32::from(register));
    }
    run.used = own.used;
}

// Writes R(first) to R(first + more), joined from the right.
pub fn push_concatenated(run: &mut Run, first: u16, more: u16)
    ensures { Adds run.old run.new (expr (concatenated first more)) }
{
    let first = u32::from(first);
    let last = first + u32::from(more);
    let mut own = Run {
        numbers: &mut *run.numbers,
        used: run.used,
    };
    for register in first..last {
        own.push_all(&[BINARY, CONCAT, REGISTER, register]);
    }
    own.push_all(&[REGISTER, last]);
    run.used = own.used;
}

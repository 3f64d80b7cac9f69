//! Acts with several registers, each in one call, so that the code of a command is a line where it is laid.
ghost use Rattle.std.specs.Prelude.{◌≡◌};
ghost use Rattle.mz_words.specs.declared.code.Act.TheVariants.{Const as Const_act, Arith as Arith_act, Read as Read_act, Write as Write_act, Retag as Retag_act, Branch as Branch_act, Give as Give_act, Take as Take_act, Spawn as Spawn_act};

use mz_tree::Arith;
use mz_words::Act;

pub(crate) fn constant(to: u32, value: u64) -> Act
    ensures { result ≡ Const_act to value }
{
    Act::Const { to, value }
}

pub(crate) fn arith(to: u32, op: Arith, left: u32, right: u32) -> Act
    ensures { result ≡ Arith_act to op left right }
{
    Act::Arith {
        to,
        op,
        left,
        right,
    }
}

pub(crate) fn read(to: u32, block: u32, con: u32, field: u32) -> Act
    ensures { result ≡ Read_act to block con field }
{
    Act::Read {
        to,
        block,
        con,
        field,
    }
}

pub(crate) fn write(to: u32, block: u32, con: u32, field: u32, from: u32) -> Act
    ensures { result ≡ Write_act to block con field from }
{
    Act::Write {
        to,
        block,
        con,
        field,
        from,
    }
}

pub(crate) fn retag(to: u32, block: u32, from: u32, con: u32) -> Act
    ensures { result ≡ Retag_act to block from con }
{
    Act::Retag {
        to,
        block,
        from,
        con,
    }
}

pub(crate) fn branch(test: u32, zero: u32) -> Act
    ensures { result ≡ Branch_act test zero }
{
    Act::Branch { test, zero }
}

pub(crate) fn give(to: u32, block: u32, adopter: u32) -> Act
    ensures { result ≡ Give_act to block adopter }
{
    Act::Give { to, block, adopter }
}

pub(crate) fn take(to: u32, block: u32, adopter: u32) -> Act
    ensures { result ≡ Take_act to block adopter }
{
    Act::Take { to, block, adopter }
}

pub(crate) fn spawn(to: u32, callee: u32, arg: u32) -> Act
    ensures { result ≡ Spawn_act to callee arg }
{
    Act::Spawn { to, callee, arg }
}

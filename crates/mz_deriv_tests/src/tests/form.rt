//! Sources, and scripts as flat tables, which a test turns into values. Numbers and names are those of the program that is read.

/// A permission.
#[derive(Clone, Copy)]
pub enum Held {
    Int(u32),
    Unknown(u32),
    Dynamic(u32),
    Locked(u32),
    /// A name, and its data type.
    Named(u32, u32),
    /// A name, and its signature.
    Function(u32, u32),
    /// A name, and the constructor of its block, which has no field.
    Empty(u32, u32),
    /// A name, the constructor of its block, the name of the field, and what the block adopts.
    Block(u32, u32, u32, Option<u32>),
    /// A name, the constructor of its block, and the names of the two fields.
    Pair(u32, u32, u32, u32),
    /// A lock, and the cell that it guards.
    Lock(u32, u32),
    Equal(u32, u32),
}

/// A view step.
#[derive(Clone, Copy)]
pub enum Step {
    Drop(Held),
    Copy(Held),
    /// A name, its data type, and the first name that is made.
    Unfold(u32, u32, u32),
    Fold(Held),
    Rename(Held, u32),
    Equal(u32, u32),
    Dynamic(u32),
    Clause(Held, u32),
    Unknown(u32),
    Meet(Held, Held),
    /// A structural permission, a field, and the name that is put there.
    Field(Held, u32, u32),
    /// A permission of a lock, a spot, and the name that is put there.
    Spot(Held, u32, u32),
}

/// What the check answers to a script: Ok, or what is refused, with its line and column.
#[derive(Clone, Copy)]
pub enum Want {
    Passes,
    /// A view step has no instance: its line, its column, and its number.
    Step(u32, u32, u64),
    Command(u32, u32),
    Join(u32, u32),
}

/// A line of a script, or of a table of scripts.
#[derive(Clone, Copy)]
pub enum Line {
    See(Step),
    /// A command that uses no permission.
    Do,
    /// A command that uses this one.
    Uses(Held),
    /// A command with branches, and the permission that it uses: then come its cases, each with its lines and an end, then the
    /// permissions of the join, and the end of all.
    Forks(Option<Held>),
    /// A case, and the first name that it makes, or 0.
    Case(u32),
    End,
    Join(Held),
    Joined,
    /// The script of the next function begins.
    Next,
    /// A script with something changed: its name, two numbers, and what is answered. The lines that follow stand in the place of the
    /// right script's lines from the first number, counted from 0, up to the second, which stays.
    Row(&'static str, usize, usize, Want),
}

/// A source, which begins with a function whose script the table changes.
#[derive(Clone, Copy)]
pub enum Source {
    /// The function is `main`. Before it stand the common declarations, which are two lines, behind it the common functions.
    Main(&'static str),
    /// So it is with this one, but `main` is one of the functions behind it.
    Beside(&'static str),
    /// A whole source. The scripts of the table are those of all its functions.
    Whole(&'static str),
}

/// A source, its right script, and rows.
pub type Table = (Source, &'static [Line], &'static [Line]);

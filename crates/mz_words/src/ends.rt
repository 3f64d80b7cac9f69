//! How a thread ends.
use mz_tree::Place;

/// How a thread ended; the places are those of the instructions. All but `Done`, `Halted` and `NeverStarted` are stops of
/// the thread's own, after which it tells the others to stop.
#[derive(Clone, Copy, Debug, PartialEq, Eq)]
pub enum End {
    /// Its first function returned.
    Done,
    /// A take of a block whose adopter is another.
    TakeFailed(Place),
    /// A result outside 0 to 2^64-1, or a divisor that is 0.
    Arith(Place),
    /// A block that doesn't fit into the words that are left.
    HeapFull(Place),
    /// A spawn where all thread numbers were drawn.
    ThreadsFull(Place),
    /// A call with whose frame the registers of the thread would be more than 1,048,576.
    StackFull(Place),
    /// It has made all the units that it may make, and would make another.
    Spent,
    /// It tried to acquire one lock as often as it may.
    Blocked(Place),
    /// Another thread told it to stop.
    Halted,
    /// It had not started when no thread was alive any more.
    NeverStarted,
    /// Memory was refused.
    Memory,
}
